//! A law of clean runs: the line that an execute finds stays.
ghost use Rattle.tm_legal.specs.Prelude.{FirstExecuteStays};

/// In a clean run from a plain opening the line that an execute finds in a live domain stays, or
/// the learned one is found where none was.
pub fn first_execute_stays()
    ensures { FirstExecuteStays }
{}
