//! What a call stores and puts, carried out in its order.
ghost use Rattle.std.specs.Prelude.{◌≡◌, ◌≤◌, [], OnOk, IfErr};
ghost use Rattle.tm_io.specs.Causes.{Rose};
ghost use Rattle.tm_io.specs.Notes.{Noted};
ghost use Rattle.tm_call.specs.Stores.{Leaves, StoreStops, names_of};
ghost use Rattle.tm_call.specs.Calls.{StoresOf};
ghost use Rattle.tm_call.specs.Ends.{outside, CarriedOut};

use crate::status::{OutName, Status};
use tm_io::{FileList, FileName, Shelf, Sink, Stored};
use tm_word::Text;

/// What a command stores, in order, and what it then puts.
#[derive(Drop)]
pub struct Outcome {
    pub stores: FileList,
    pub line: Text,
}

// Stores files in order, up to the first store that is not done.
fn store_all<S: Shelf>(shelf: &mut S, stores: &[(FileName, Text)]) -> Result<(), Status>
    ensures done { OnOk result (Leaves stores.now (S.file shelf.old) (S.file shelf.new)) }
    ensures stops { IfErr result (StoreStops stores.now (S.file shelf.old) (S.file shelf.new)
        (Rose (S.faults shelf.old) (S.faults shelf.new))) }
    ensures counts { S.faults shelf.old ≤ S.faults shelf.new }
    ensures all { OnOk result
        (Noted (names_of stores.now) (S.stored shelf.old) (S.stored shelf.new)) }
    ensures last { IfErr result (λ status.
        StoresOf (names_of stores.now) status (S.stored shelf.old) (S.stored shelf.new)) }
    ensures no_fetch { Noted [] (S.fetched shelf.old) (S.fetched shelf.new) }
{
    for (name, bytes) in stores {
        match shelf.store(*name, bytes.bytes()) {
            Stored::Done => {}
            Stored::Failed => return Err(Status::WriteFault(OutName::File(*name))),
            Stored::NoMemory => return Err(Status::OutOfMemory),
        }
    }
    Ok(())
}

/// Stores all files in order, and then puts the line.
pub fn carry_out<S: Shelf, K: Sink>(outcome: &Outcome, shelf: &mut S, out: &mut K) -> Status
    ensures ends { CarriedOut outcome.now
        (outside S.Shelf K.Sink shelf.old out.old) (outside S.Shelf K.Sink shelf.new out.new) result }
    ensures stores { StoresOf (names_of outcome.now.stores) result (S.stored shelf.old)
        (S.stored shelf.new) }
    ensures no_fetch { Noted [] (S.fetched shelf.old) (S.fetched shelf.new) }
{
    match store_all(shelf, outcome.stores.as_slice()) {
        Ok(()) => match out.put(outcome.line.bytes()) {
            Stored::Done => Status::Done,
            Stored::Failed => Status::WriteFault(OutName::StandardOutput),
            Stored::NoMemory => Status::OutOfMemory,
        },
        Err(stopped) => stopped,
    }
}
