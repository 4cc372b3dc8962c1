//! Machines that are opened from files, each with the trace that can be played from it.
ghost use Rattle.std.specs.Prelude.{IfOk};
ghost use Rattle.tm_rules.specs.Prelude.{IsFew};
ghost use Rattle.tm_legal.specs.Prelude.{CanPlay};
ghost use Rattle.tm_call_input.specs.Reading.{scene_of};
ghost use Rattle.tm_trace.specs.Written.{IsTrace};
ghost use Rattle.tm_tests_alone.specs.Opened.{CanBePlayed};

use crate::refusing::Refusing;
use std::alloc::{AllocError, Global};
use tm_call_input::{Loaded, read_scene};
use tm_indexed::Indexed;
use tm_io::{FileList, FileName};
use tm_list::NoMemory;
use tm_machine::Machine;
use tm_rep::Rep;
use tm_script::has_supervisor;
use tm_types::request::Trace;
use tm_types::step::Book;
use tm_word::Text;

/// The files of a call by their names.
pub(crate) fn files(alloc: Global, texts: &[(FileName, &str)]) -> Result<FileList, NoMemory> {
    let mut files = FileList::new(alloc);
    for (name, text) in texts {
        files.push((*name, Text::from_bytes(alloc, text.as_bytes())?))?;
    }
    Ok(files)
}

/// A machine at version 0, a trace that can be played from it, and the book of whoever answers.
#[derive(Drop)]
pub(crate) struct Opened<R: Rep> {
    pub(crate) machine: Machine<R>,
    pub(crate) trace: Trace,
    pub(crate) book: Book,
}

/// What these files hold.
pub(crate) fn read(alloc: Global, texts: FileList) -> Result<Loaded, NoMemory>
    ensures few { IfOk result (λ loaded. IsFew loaded.policy) }
    ensures can { IfOk result (λ loaded. CanPlay (scene_of loaded)) }
    ensures written { IfOk result (λ loaded. IsTrace loaded.trace) }
{
    match read_scene(alloc, texts) {
        Ok(loaded) => Ok(loaded),
        Err(_) => Err(AllocError),
    }
}

// A machine at what was read, with its trace and its book.
fn begin(alloc: Global, loaded: Loaded) -> Result<Opened<Indexed>, NoMemory>
    requires few { IsFew loaded.policy }
    requires can { CanPlay (scene_of loaded) }
    requires written { IsTrace loaded.trace }
    ensures { IfOk result (λ begun. CanBePlayed begun.trace begun.book begun.machine) }
{
    let Loaded {
        policy,
        trace,
        editors,
        book,
        ..
    } = loaded;
    let Ok(trees) = u32::try_from(trace.len()) else {
        return Err(AllocError);
    };
    let stands = has_supervisor(&book);
    let machine = Machine::start(alloc, policy, editors.into_vec(), trees, stands)?;
    Ok(Opened {
        machine,
        trace,
        book,
    })
}

// The same with a machine that has no memory to learn a line.
fn begin_refusing(alloc: Global, loaded: Loaded) -> Result<Opened<Refusing>, NoMemory>
    requires few { IsFew loaded.policy }
    requires can { CanPlay (scene_of loaded) }
    requires written { IsTrace loaded.trace }
    ensures { IfOk result (λ begun. CanBePlayed begun.trace begun.book begun.machine) }
{
    let Loaded {
        policy,
        trace,
        editors,
        book,
        ..
    } = loaded;
    let Ok(trees) = u32::try_from(trace.len()) else {
        return Err(AllocError);
    };
    let stands = has_supervisor(&book);
    let rep = Refusing { inner: policy };
    let machine = Machine::start(alloc, rep, editors.into_vec(), trees, stands)?;
    Ok(Opened {
        machine,
        trace,
        book,
    })
}

/// A machine at version 0 whose opening these files hold, with the trace and the book that they
/// hold.
pub(crate) fn open_machine(
    alloc: Global,
    texts: &[(FileName, &str)],
) -> Result<Opened<Indexed>, NoMemory>
    ensures { IfOk result (λ begun. CanBePlayed begun.trace begun.book begun.machine) }
{
    begin(alloc, read(alloc, files(alloc, texts)?)?)
}

/// The same with a machine that has no memory to learn a line.
pub(crate) fn open_refusing(
    alloc: Global,
    texts: &[(FileName, &str)],
) -> Result<Opened<Refusing>, NoMemory>
    ensures { IfOk result (λ begun. CanBePlayed begun.trace begun.book begun.machine) }
{
    begin_refusing(alloc, read(alloc, files(alloc, texts)?)?)
}
