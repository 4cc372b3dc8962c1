//! Laws of what is read and sorted.
ghost use Rattle.tm_sort.specs.Records.{RecordsAreText, RecordFaultIsFirst};
ghost use Rattle.tm_sort.specs.Rules.{RulesAreRight, RuleFaultIsFirst};
ghost use Rattle.tm_sort.specs.Parts.{PartsShareRecords};

/// Laws, nothing to run: what is read as records is exactly a text of records, each of three lines
/// of one byte or more and an empty line; and the line that a fault names is there, the lines
/// before it are read, and it can't stand after them.
pub fn records_read()
    ensures text { RecordsAreText }
    ensures fault { RecordFaultIsFirst }
{}

/// Laws, nothing to run: of rules that are read the part is below 16, the header is `any` or has
/// patterns of the grammar, and the lists are lists; and the line that a fault names is there, the
/// lines before it are read, and it is wrong in the fault's kind after them.
pub fn rules_read()
    ensures right { RulesAreRight }
    ensures fault { RuleFaultIsFirst }
{}

/// A law, nothing to run: the part of a record is below 16 and is there, so that the parts have as
/// many records as there are.
pub fn parts_share_records()
    ensures { PartsShareRecords }
{}
