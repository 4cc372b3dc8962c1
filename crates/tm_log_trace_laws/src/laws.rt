//! The laws, each on a function whose only clause it is.
ghost use Rattle.tm_log_trace_laws.specs.Told.{EachRecordIsOneLine, EachRecordOfBytesIsOneLine};

/// Each record that is used is one line `do` of the trace: of its process, in its domain, with its
/// request, in the records' order; and any other line `do` is a manual transition of which a
/// warning tells. It is so for each log whose pids are those of Linux and whose records' numbers
/// rise.
pub fn each_record_is_one_line()
    ensures { EachRecordIsOneLine }
{}

/// The log that bytes are is such a log.
pub fn each_record_of_bytes_is_one_line()
    ensures { EachRecordOfBytesIsOneLine }
{}
