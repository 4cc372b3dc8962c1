//! A list of places, which takes memory only where it has more than one.
ghost use Rattle.std.specs.Prelude.{◌≡◌, ◌∷◌, ◌++◌, [], drop, IfOk, OnOk, OnErr};
ghost use Rattle.tm_index.specs.Buckets.{front, lowered, closing};

use crate::buckets::{close, lowered, take_first};
use std::alloc::Global;
use std::marker::Model;
use std::slice::from_ref;
use tm_list::{NoMemory, Seq};

/// How the places are kept.
#[derive(Drop)]
enum Form {
    /// There is none.
    None,
    /// There is this one.
    One(u32),
    /// There are these.
    Many(Seq<u32>),
}

/// Places of one key: most keys have one alone. Contracts see the list of them.
#[derive(Drop)]
pub(crate) struct Places {
    form: Form,
}

impl Model for Places {
    ghost use Rattle.std.specs.Prelude.{ℕ, List};
    ghost use Rattle.tm_index.specs.Places.{places_of};

    ghost Value = { List ℕ };

    ghost view = { λ p. places_of p.form };
}

// Two places.
fn pair(alloc: Global, first: u32, second: u32) -> Result<Seq<u32>, NoMemory>
    ensures { IfOk result (λ list. list ≡ first ∷ second ∷ []) }
{
    let mut list = Seq::new(alloc);
    list.push(first)?;
    list.push(second)?;
    Ok(list)
}

impl Places {
    /// No place, which takes no memory.
    pub(crate) fn none() -> Places
        ensures { result ≡ [] }
    {
        Places { form: Form::None }
    }

    /// One place, which takes no memory.
    pub(crate) fn one(place: u32) -> Places
        ensures { result ≡ place ∷ [] }
    {
        Places {
            form: Form::One(place),
        }
    }

    /// Lends them.
    pub(crate) fn as_slice(&self) -> &[u32]
        ensures { result.now ≡ self.now }
    {
        match &self.form {
            Form::None => &[],
            Form::One(place) => from_ref(place),
            Form::Many(list) => list.as_slice(),
        }
    }

    /// Puts one last; after want of memory they are as before.
    pub(crate) fn push(&mut self, alloc: Global, place: u32) -> Result<(), NoMemory>
        ensures ok { OnOk result (self.new ≡ self.old ++ place ∷ []) }
        ensures err { OnErr result (self.new ≡ self.old) }
    {
        match &mut self.form {
            Form::None => {
                self.form = Form::One(place);
                Ok(())
            }
            Form::One(first) => {
                let list = pair(alloc, *first, place)?;
                self.form = Form::Many(list);
                Ok(())
            }
            Form::Many(list) => list.push(place),
        }
    }

    /// Takes the last one out.
    pub(crate) fn take_last(&mut self)
        ensures { self.new ≡ front self.old }
    {
        match &mut self.form {
            Form::None => {}
            Form::One(_) => self.form = Form::None,
            Form::Many(list) => {
                let _ = list.pop();
            }
        }
    }

    /// Takes the first one out.
    pub(crate) fn take_first(&mut self)
        ensures { self.new ≡ drop 1 self.old }
    {
        match &mut self.form {
            Form::None => {}
            Form::One(_) => self.form = Form::None,
            Form::Many(list) => take_first(list),
        }
    }

    /// Takes a place out, and lowers each larger one by one.
    pub(crate) fn close(&mut self, place: u32)
        ensures { self.new ≡ closing place self.old }
    {
        match &mut self.form {
            Form::None => {}
            Form::One(there) => {
                if *there == place {
                    self.form = Form::None;
                } else {
                    *there = lowered(place, *there);
                }
            }
            Form::Many(list) => close(list, place),
        }
    }
}
