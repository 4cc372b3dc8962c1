//! Whether a line can write an entry.
ghost use Rattle.std.specs.Prelude.{◌≡◌, ◌↔◌, Ok, IfOk, IsTrue};
ghost use Rattle.tm_entry.specs.Entries.{entry_of, is_entry};

use crate::{print_entry, read_entry};
use std::alloc::{AllocError, Global};
use tm_list::{NoMemory, Same};
use tm_types::entry::Entry;
use tm_types::step::LineFault;
use tm_word::{Text, normal_words};

// Whether both are the same entry.
fn same_entry(left: &Entry, right: &Entry) -> bool
    ensures { IsTrue result ↔ (left.now ≡ right.now) }
{
    left.args.same(&right.args)
        && left.perms.bits == right.perms.bits
        && left.cond.same(&right.cond)
}

// Whether these words are read as the entry.
fn is_read_as(alloc: Global, words: &[Text], entry: &Entry) -> Result<bool, NoMemory>
    ensures { IfOk result (λ same. IsTrue same ↔ (entry_of words.now ≡ Ok entry.now)) }
{
    match read_entry(alloc, words) {
        Ok(read) => Ok(same_entry(&read, entry)),
        Err(LineFault::NoMemory) => Err(AllocError),
        Err(LineFault::Kind(_)) => Ok(false),
    }
}

/// Whether a line of a policy can write an entry: it is printed, and read again as the same entry.
/// Errors: want of memory.
#[tactic(auto, using(crate::proofs::WrittenLaws::written))]
pub fn is_written(alloc: Global, entry: &Entry) -> Result<bool, NoMemory>
    ensures { IfOk result (λ written. written ≡ is_entry entry.now) }
{
    let mut text = Vec::new(alloc);
    print_entry(alloc, entry, &mut text)?;
    let words = normal_words(alloc, &text)?;
    is_read_as(alloc, &words, entry)
}
