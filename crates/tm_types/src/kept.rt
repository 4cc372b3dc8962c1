//! Values that are kept apart from what has them.
ghost use Rattle.std.specs.Prelude.{◌≡◌, ◌↔◌, IfOk, IsTrue};

use std::alloc::{AllocError, Global};
use std::marker::Model;
use tm_number::list::{Copied, NoMemory, Same};

/// A value that is kept apart, so that what has it is small where it is moved. Contracts see the
/// value.
#[derive(Drop)]
pub struct Kept<T> {
    value: Box<T>,
}

impl<T> Model for Kept<T> {
    ghost Value = { T };

    ghost view = { λ kept. kept.value.value };
}

impl<T> Kept<T> {
    /// This value, kept apart.
    ///
    /// Errors: want of memory.
    pub fn new(alloc: Global, value: T) -> Result<Kept<T>, NoMemory>
    where
        T: Drop,
        ensures { IfOk result (λ kept. kept ≡ value) }
    {
        match Box::new(alloc, value) {
            Ok(value) => Ok(Kept { value }),
            Err(refused) => {
                drop(refused);
                Err(AllocError)
            }
        }
    }

    /// The value.
    pub fn get(&self) -> &T
        ensures { result.now ≡ self.now }
    {
        &self.value
    }

    /// The value, taken out.
    pub fn into_value(self) -> T
        ensures { result ≡ self }
    {
        let Kept { value } = self;
        Box::into_inner(value)
    }
}

impl<T: Copied> Copied for Kept<T> {
    fn copy(&self, alloc: Global) -> Result<Self, NoMemory> {
        Kept::new(alloc, self.get().copy(alloc)?)
    }
}

impl<T: Same> Same for Kept<T> {
    fn same(&self, other: &Self) -> bool {
        self.get().same(other.get())
    }
}
