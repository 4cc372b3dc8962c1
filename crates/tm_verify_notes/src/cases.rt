//! The `do` lines with their takes, each with the situation of its process: one walk over the
//! trace.
ghost use Rattle.std.specs.Prelude.{◌≡◌, ◌++◌, ◌+◌, ◌<◌, ◌^◌, length, take, drop, OnOk, IfOk};
ghost use Rattle.tm_rules.specs.Prelude.{IsFew};
ghost use Rattle.tm_legal.specs.Prelude.{cases, cases_from, do_pids, tree_cases};
ghost use Rattle.tm_take.specs.Situations.{first_situation};

use std::alloc::Global;
use std::marker::Model;
use tm_list::NoMemory;
use tm_rep::Rep;
use tm_take::{ProcessSituation, ProcessSituations};
use tm_types::request::{Item, Request, Tree};
use tm_types::step::Take;

/// A `do` line with its process's situation, and its take.
#[derive(Drop)]
pub struct DoCase<'a> {
    pub tree: u32,
    pub stand: ProcessSituation,
    pub request: &'a Request,
    pub taken: &'a Take,
}

impl<'a> Model for DoCase<'a> {
    ghost use Rattle.tm_legal.specs.Prelude.{Case};
    ghost use Rattle.tm_verify_notes.specs.Cases.{case_of};

    ghost Value = { Case };

    ghost view = { λ c. case_of c.tree c.stand c.request.now c.taken.now };
}

/// Appends the `do` lines of a tree, each with its take.
#[tactic(auto, unfolding(tm_legal::specs::Run::tree_cases))]
fn push_tree<'a>(
    alloc: Global,
    tree: u32,
    home: Option<u32>,
    items: &'a [Item],
    takes: &'a [Take],
    out: &mut Vec<DoCase<'a>>,
) -> Result<(), NoMemory>
    ensures { OnOk result (out.new.items ≡ out.old.items ++ tree_cases tree (first_situation home) items.now takes.now) }
{
    let mut known = ProcessSituations::new(alloc, home);
    let mut rest = takes;
    for item in items {
        match item {
            Item::Ids(pid, ids) => known.set_ids(*pid, *ids)?,
            Item::Fork(pid, child) => known.fork(*pid, *child)?,
            Item::Do(pid, request) => match rest {
                [] => return Ok(()),
                [taken, more @ ..] => {
                    let stand = known.at(*pid);
                    out.push(DoCase {
                        tree,
                        stand,
                        request,
                        taken,
                    })?;
                    known.take(*pid, stand, taken)?;
                    rest = more;
                }
            },
        }
    }
    Ok(())
}

/// How many `do` lines there are.
fn count_dos(items: &[Item]) -> usize
    ensures { result ≡ length (do_pids items.now) }
{
    let mut count = 0;
    for item in items {
        match item {
            Item::Do(_, _) => count += 1,
            Item::Ids(_, _) => {}
            Item::Fork(_, _) => {}
        }
    }
    count
}

/// So many takes, or all where there are no more, and those after them.
#[tactic(auto, using(crate::proofs::CaseLaws::take_over, crate::proofs::CaseLaws::drop_over))]
fn cut(takes: &[Take], own: usize) -> (&[Take], &[Take])
    ensures front { result.0.now ≡ take own takes.now }
    ensures rest { result.1.now ≡ drop own takes.now }
{
    if own < takes.len() {
        (&takes[..own], &takes[own..])
    } else {
        (takes, &takes[takes.len()..])
    }
}

/// The `do` lines of the whole trace, each with its take; a tree begins in the live domain of its
/// name in this policy.
#[tactic(auto, unfolding(tm_legal::specs::Run::cases_from))]
pub fn all_cases<'a, R: Rep>(
    alloc: Global,
    rep: &R,
    trace: &'a [Tree],
    takes: &'a [Take],
) -> Result<Vec<DoCase<'a>>, NoMemory>
    requires few { IsFew (R.policy rep.now) }
    requires trees { length trace.now + 1 < 2 ^ 32 }
    ensures { IfOk result (λ cs. cs.items ≡ cases (R.policy rep.now) trace.now takes.now) }
{
    let mut out = Vec::new(alloc);
    let mut rest = takes;
    let mut number: u32 = 1;
    for tree in trace {
        let home = rep.live_domain(&tree.start);
        let items = tree.records.as_slice();
        let (own, others) = cut(rest, count_dos(items));
        push_tree(alloc, number, home, items, own, &mut out)?;
        rest = others;
        number += 1;
    }
    Ok(out)
}
