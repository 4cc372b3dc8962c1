//! Which trees may move in the default order.
ghost use Rattle.std.specs.Prelude.{◌≡◌, ◌||◌, ◌&&◌, ℕ, IfOk, OnOk, None, Some, is_none, if◌then◌else◌, ◌==◌};
ghost use Rattle.std.specs.Ordering.{nat_cmp};
ghost use Rattle.std.specs.List.Sorted.{IsStrictlySortedBy};
ghost use Rattle.tm_core.specs.Resting.{is_awake, tree_of, is_tree, is_found, wakes, LiesDown};

use std::alloc::Global;
use std::collections::{BTreeMap, BTreeSet};
use tm_list::NoMemory;
use tm_types::step::Turn;

/// The numbers of the trees that may move, in order, and the tree that waits for the answer of each
/// query, by its serial. A serial stays with its tree when the answer is there: no other query has
/// it.
#[derive(Drop)]
pub(crate) struct Awake {
    trees: BTreeSet<u32>,
    waiting: BTreeMap<u64, u32>,
}

impl Awake {
    /// Every one of so many trees may move.
    pub(crate) fn all(alloc: Global, trees: u32) -> Result<Awake, NoMemory>
        ensures awake { IfOk result (λ awake. (t : ℕ) → is_awake awake t ≡ is_tree trees t) }
        ensures waiting { IfOk result (λ awake. (serial : ℕ) → tree_of awake serial ≡ None) }
    {
        let mut awake = Awake {
            trees: BTreeSet::new(alloc),
            waiting: BTreeMap::new(alloc),
        };
        awake.wake_all(trees)?;
        Ok(awake)
    }

    /// The numbers of the trees that may move, in order.
    pub(crate) fn numbers(&self, alloc: Global) -> Result<Vec<u32>, NoMemory>
        ensures all { IfOk result (λ numbers. numbers.items ≡ self.now.trees.keys) }
        ensures sorted { IfOk result (λ numbers. IsStrictlySortedBy nat_cmp numbers.items) }
    {
        let mut numbers = Vec::with_capacity(alloc, self.trees.len())?;
        for number in &self.trees {
            numbers.push(*number)?;
        }
        Ok(numbers)
    }

    // Every one of so many trees may move again.
    fn wake_all(&mut self, trees: u32) -> Result<(), NoMemory>
        ensures awake { OnOk result
            ((t : ℕ) → is_awake self.new t ≡ (is_awake self.old t || is_tree trees t)) }
        ensures waiting { OnOk result (self.new.waiting ≡ self.old.waiting) }
    {
        for place in 0..trees {
            self.trees.insert(place + 1)?;
        }
        Ok(())
    }

    // The tree that waits for the answer of this query may move again.
    fn wake_for(&mut self, serial: u64) -> Result<(), NoMemory>
        ensures awake { OnOk result
            ((t : ℕ) → is_awake self.new t ≡ (is_awake self.old t || is_found self.old serial t)) }
        ensures waiting { OnOk result (self.new.waiting ≡ self.old.waiting) }
    {
        if let Some(number) = self.waiting.get(&serial) {
            self.trees.insert(*number)?;
        }
        Ok(())
    }

    /// After this turn of the supervisor the tree that has waited for its answer may move again; so
    /// may each of so many trees where it has left.
    pub(crate) fn wake_after(&mut self, turn: Turn, trees: u32) -> Result<(), NoMemory>
        ensures awake { OnOk result ((t : ℕ) → is_awake self.new t
            ≡ (is_awake self.old t || wakes turn trees self.old t)) }
        ensures waiting { OnOk result (self.new.waiting ≡ self.old.waiting) }
    {
        match turn {
            Turn::Answer(serial, _) => self.wake_for(serial),
            Turn::Detach => self.wake_all(trees),
            Turn::Attach => Ok(()),
            Turn::Tree(_) => Ok(()),
            Turn::Editor(_) => Ok(()),
            Turn::Desk => Ok(()),
        }
    }

    // The tree of this number is found by this serial from now on; false where another one is.
    fn note(&mut self, serial: u64, number: u32) -> Result<bool, NoMemory>
        ensures noted { IfOk result (λ noted. noted ≡ is_none (tree_of self.old serial)) }
        ensures found { OnOk result ((k : ℕ) → tree_of self.new k
            ≡ (if is_none
            (tree_of self.old serial) && serial == k then Some number else tree_of self.old k)) }
        ensures trees { OnOk result (self.new.trees ≡ self.old.trees) }
    {
        if self.waiting.contains_key(&serial) {
            return Ok(false);
        }
        self.waiting.insert(serial, number)?;
        Ok(true)
    }

    /// The tree of this number can't move until the query of this serial has an answer, or ever
    /// where there is none: it gets no turn until it is woken.
    pub(crate) fn lay_down(&mut self, number: u32, serial: Option<u64>) -> Result<(), NoMemory>
        ensures { OnOk result (LiesDown number serial self.old self.new) }
    {
        let may_lie = match serial {
            Some(serial) => self.note(serial, number)?,
            None => true,
        };
        if may_lie {
            self.trees.remove(&number);
        }
        Ok(())
    }
}
