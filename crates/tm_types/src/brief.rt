//! Lists that are brief as a rule.
ghost use Rattle.std.specs.Prelude.{◌≡◌, ◌↔◌, ◌++◌, ◌∷◌, [], length, IfOk, OnOk, OnErr, IsTrue};
ghost use Rattle.std.specs.Mem.{FitsInMemory};
ghost use Rattle.tm_types.specs.Briefs.{elements_of};

use std::alloc::Global;
use std::marker::Model;
use std::mem::replace;
use std::slice::from_ref;
use tm_number::list::{Copied, NoMemory};

/// How a brief list is kept: an only element in the value itself.
#[derive(Drop)]
enum Form<T> {
    Empty,
    One(T),
    Many(Vec<T>),
}

/// A growing list that has one element as a rule, or none, and then takes no memory of its own.
/// Contracts see it as the list of its elements.
#[derive(Drop)]
pub struct Brief<T> {
    alloc: Global,
    form: Form<T>,
}

impl<T> Model for Brief<T> {
    ghost use Rattle.std.specs.Prelude.{List};
    ghost use Rattle.tm_types.specs.Briefs.{elements_of};

    ghost Value = { List T };

    ghost view = { λ brief. elements_of brief.form };
}

impl<T> Brief<T> {
    /// The empty list, which takes no memory.
    pub fn new(alloc: Global) -> Self
        ensures { result ≡ [] }
    {
        Brief {
            alloc,
            form: Form::Empty,
        }
    }

    /// Lends the elements, whose type has a size that fits in memory, as each type of values has.
    pub fn as_slice(&self) -> &[T]
        requires { FitsInMemory T.row }
        ensures { result.now ≡ self.now }
    {
        match &self.form {
            Form::Empty => &[],
            Form::One(only) => from_ref(only),
            Form::Many(items) => items.as_slice(),
        }
    }

    /// How many elements it has.
    pub fn len(&self) -> usize
        ensures { result ≡ length self.now }
    {
        match &self.form {
            Form::Empty => 0,
            Form::One(_) => 1,
            Form::Many(items) => items.len(),
        }
    }

    /// Whether it has no element.
    pub fn is_empty(&self) -> bool
        ensures { IsTrue result ↔ (self.now ≡ []) }
    {
        match &self.form {
            Form::Empty => true,
            Form::One(_) => false,
            Form::Many(items) => items.is_empty(),
        }
    }
}

impl<T: Drop> Form<T> {
    // A second element behind the only one.
    fn push_second(&mut self, alloc: Global, item: T) -> Result<(), NoMemory>
        requires { (only : T) × (self.old ≡ Form.One only) }
        ensures ok { OnOk result (elements_of self.new ≡ elements_of self.old ++ item ∷ []) }
        ensures err { OnErr result (self.new ≡ self.old) }
    {
        let mut items = Vec::with_capacity(alloc, 2)?;
        match replace(self, Form::Empty) {
            Form::One(only) => {
                items.push_reserved(only);
                items.push_reserved(item);
                *self = Form::Many(items);
                Ok(())
            }
            Form::Empty | Form::Many(_) => unreachable!(),
        }
    }

    // An element more, at the end.
    fn push(&mut self, alloc: Global, item: T) -> Result<(), NoMemory>
        ensures ok { OnOk result (elements_of self.new ≡ elements_of self.old ++ item ∷ []) }
        ensures err { OnErr result (elements_of self.new ≡ elements_of self.old) }
    {
        match self {
            Form::Empty => {
                *self = Form::One(item);
                Ok(())
            }
            Form::One(_) => self.push_second(alloc, item),
            Form::Many(items) => {
                items.push(item)?;
                Ok(())
            }
        }
    }
}

impl<T: Drop> Brief<T> {
    /// Puts an element last; after want of memory the list is as before.
    pub fn push(&mut self, item: T) -> Result<(), NoMemory>
        ensures ok { OnOk result (self.new ≡ self.old ++ item ∷ []) }
        ensures err { OnErr result (self.new ≡ self.old) }
    {
        self.form.push(self.alloc, item)
    }
}

impl<T: Copied> Copied for Brief<T> {
    fn copy(&self, alloc: Global) -> Result<Self, NoMemory> {
        let form = match &self.form {
            Form::Empty => Form::Empty,
            Form::One(only) => Form::One(only.copy(alloc)?),
            Form::Many(items) => Form::Many(T::copy_all(items.as_slice(), alloc)?),
        };
        Ok(Brief { alloc, form })
    }
}
