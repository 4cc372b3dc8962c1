//! The greatest version that the takes of each tree have seen.
ghost use Rattle.std.specs.Prelude.{◌≡◌, IfOk, OnOk, flat_map};
ghost use Rattle.tm_legal.specs.Prelude.{raised, seen};
ghost use Rattle.tm_verify_steps.specs.Heights.{height, with_height, raised_all};

use std::alloc::Global;
use std::collections::BTreeMap;
use tm_list::NoMemory;
use tm_take::raised_by_looks;
use tm_types::step::Take;
use tm_verify_notes::DoCase;

/// A number for each tree; one that isn't noted has 0.
#[derive(Drop)]
pub(crate) struct Heights {
    known: BTreeMap<u32, u64>,
}

impl Heights {
    // The number of a tree.
    #[tactic(auto, unfolding(crate::specs::Heights::height))]
    pub(crate) fn of(&self, tree: u32) -> u64
        ensures { result ≡ height self.now tree }
    {
        match self.known.get(&tree) {
            Some(number) => *number,
            None => 0,
        }
    }

    // Another number of a tree.
    #[tactic(auto, unfolding(crate::specs::Heights::height))]
    fn put(&mut self, tree: u32, number: u64) -> Result<(), NoMemory>
        ensures { OnOk result (height self.new ≡ with_height (height self.old) tree number) }
    {
        self.known.insert(tree, number)?;
        Ok(())
    }

    // The number of a tree, raised by a take.
    fn raise(&mut self, tree: u32, taken: &Take) -> Result<(), NoMemory>
        ensures { OnOk result (height self.new ≡ with_height (height self.old) tree
            (raised (height self.old tree) (flat_map seen taken.now.looks))) }
    {
        let number = raised_by_looks(self.of(tree), taken.looks.as_slice());
        self.put(tree, number)
    }

    // 0 of each tree.
    #[tactic(auto, unfolding(crate::specs::Heights::height))]
    fn none(alloc: Global) -> Heights
        ensures { height result ≡ λ tree. 0 }
    {
        Heights {
            known: BTreeMap::new(alloc),
        }
    }
}

/// The greatest version that the takes of each tree have seen.
pub(crate) fn heights_of(alloc: Global, cases: &[DoCase<'_>]) -> Result<Heights, NoMemory>
    ensures { IfOk result (λ heights. height heights ≡ raised_all (λ tree. 0) cases.now) }
{
    let mut heights = Heights::none(alloc);
    for case in cases {
        heights.raise(case.tree, case.taken)?;
    }
    Ok(heights)
}
