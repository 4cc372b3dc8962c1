//! How a board is opened.
ghost use Rattle.std.specs.Prelude.{◌≡◌, ℕ, ◌<◌, ◌≤◌, [], Some, false, length, IfOk, slice_get};
ghost use Rattle.tm_publish.specs.Boards.{board_home, board_list, is_stopped, Names};
ghost use Rattle.tm_publish.specs.Words.{IsFresh};

use crate::blank::Blank;
use crate::board::{Board, BoardOf};
use crate::front::{Front, Named};
use crate::last::Last;
use crate::page::Page;
use crate::pass::Pass;
use crate::press::Press;
use crossbeam_utils::rule::Unruled;
use left_right::reader::{Factory, Reader};
use left_right::writer::Writer;
use std::alloc::{AllocError, Global};
use std::sync::Wait;
use std::sync::ledger::Share;
use tm_list::NoMemory;
use tm_office::Office;

/// A reader. One that can't be made at once is asked for again.
fn reader<L: Named, O: Office, W: Wait>(
    rt: &W,
    factory: &Factory<Page<L, O>, (), Unruled>,
) -> Reader<Page<L, O>, (), Unruled> {
    for _ in rt.forever() {
        if let Ok(reader) = factory.reader() {
            return reader;
        }
    }
    unreachable!()
}

/// So many passes that know this front alone, each with one part of the ledger.
///
/// Errors: want of memory.
fn make_passes<L: Named, O: Office, W: Wait>(
    rt: &W,
    alloc: Global,
    factory: &Factory<Page<L, O>, (), Unruled>,
    front: &Front<L, O>,
    all: &mut Share<L>,
    passes: u32,
) -> Result<Vec<Pass<L, O>>, NoMemory>
    requires { (all.old.parts ≡ passes) × (all.old.amount ≡ 0) }
    ensures rest { IfOk result
        (λ v. (all.new.parts ≡ 0) × (all.new.amount ≡ 0) × (length v.items ≡ passes)) }
    ensures fresh { IfOk result (λ v. (k : ℕ) (p : _) → slice_get v.items k ≡ Some p →
        (p.mind.front.seen.log ≡ front.now.seen.log) × (p.mind.all.log ≡ front.now.seen.log)
        × (p.mind.made.items ≡ []) × (p.mind.refused ≡ 0)) }
{
    let mut made = Vec::new(alloc);
    for _count in 0..passes {
        let share = all.split_off(1, 0);
        let pass = Pass::new(reader(rt, factory), front, share, Vec::new(alloc));
        if made.push(pass).is_err() {
            return Err(AllocError);
        }
    }
    Ok(made)
}

/// Publishes the office, and makes the passes that may look at it.
///
/// Errors: want of memory.
pub fn open_board<L: Named, O: Office, W: Wait>(
    rt: &W,
    alloc: Global,
    blank: Blank<O>,
    office: O,
    passes: u32,
) -> Result<(Board<L, O>, Vec<Pass<L, O>>), NoMemory>
    requires named { Names L.name L.parts L.history blank }
    requires passes { (L.parts ≡ passes) × (0 < passes) × (passes ≤ 32) }
    requires empty { O.steps office ≡ [] }
    ensures board { IfOk result
        (λ r. (board_home r.0 ≡ Some (O.opening office)) × (board_list r.0 ≡ [])
        × (is_stopped r.0 ≡ false)) }
    ensures passes { IfOk result (λ r. length r.1.items ≡ passes) }
    ensures fresh { IfOk result
        (λ r. (k : ℕ) (p : _) → slice_get r.1.items k ≡ Some p → IsFresh (O.opening office) p) }
{
    let Blank { ledger, head, seen } = blank;
    let (book, mut all) = ledger.open::<L>();
    let Some((last, front)) = Last::open(&seen, head, &office) else {
        return Err(AllocError);
    };
    let spare = Page::new(office.copy(alloc)?, &front);
    let first = Page::new(office, &front);
    let mut writer: Writer<Page<L, O>, (), (), Unruled> = Writer::new(
        alloc,
        first,
        spare,
        passes as usize,
    )?;
    // `Writer::new` says nothing of the spare copy.
    let (open, spare) = writer.desk.open(rt);
    let same = spare.front.is_same(&front);
    writer.desk = open.shelve(spare);
    if !same {
        drop(writer.take(rt));
        return Err(AllocError);
    }
    let made = make_passes(rt, alloc, writer.factory(), &front, &mut all, passes);
    let press = Press::new(writer, last);
    match made {
        Ok(made) => {
            let board = BoardOf::new(press, front, book, all);
            Ok((board, made))
        }
        Err(_) => {
            drop(press.take(rt));
            Err(AllocError)
        }
    }
}
