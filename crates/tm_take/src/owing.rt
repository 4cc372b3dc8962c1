//! The steps that a take owes, and what else it may wait for.
ghost use Rattle.std.specs.Prelude.{◌≡◌, ◌∷◌, [], IfOk, MatchOption, if◌then◌else◌};
ghost use Rattle.std.specs.Option.{option_to_list};
ghost use Rattle.tm_word.specs.Prelude.{is_empty, joined};
ghost use Rattle.tm_grammar.specs.Entries.{entry_words};
ghost use Rattle.tm_legal.specs.Prelude.{is_granting, steps_of_line, steps_of_move};
ghost use Rattle.tm_grammar.specs.Tomoyo.{tomoyo_grammar};
ghost use Rattle.tm_take.specs.Taking.{owed_steps, asked_of};

use std::alloc::Global;
use tm_grammar::entry::print_entry;
use tm_list::{Copied, NoMemory, Seq};
use tm_types::entry::Entry;
use tm_types::kept::Kept;
use tm_types::step::Step;
use tm_types::verdict::{Move, Reason, Verdict};
use tm_word::Text;

/// The steps that a take owes: the one of its line, and then the one of its move.
#[derive(Drop)]
pub(crate) struct Owed {
    pub line: Option<Kept<Step>>,
    pub lead: Option<Kept<Step>>,
}

/// What a take waits for: its own steps, one after another; the answer to the query of a serial;
/// another look.
#[derive(Drop)]
pub(crate) enum Awaited {
    Steps(Owed),
    Answer(u64),
    Look,
}

/// Whether a verdict grants by its reason alone; a held request waits for its answer. Takes no
/// memory.
pub fn grants(reason: &Reason) -> bool
    ensures { result ≡ is_granting reason.now }
{
    match reason {
        Reason::Entry(_) | Reason::Disabled | Reason::Permissive | Reason::Quota | Reason::Learn =>
            true,
        _ => false,
    }
}

/// An entry as a query asks for it: its printed line.
pub fn printed(alloc: Global, entry: &Entry) -> Result<Text, NoMemory>
    ensures { IfOk result (λ text. text ≡ joined (entry_words entry.now)) }
{
    let mut text = Vec::new(alloc);
    print_entry(alloc, entry, &mut text)?;
    Ok(Seq::from_vec(text))
}

// The Learn or the Ask that a verdict asks for first.
fn line_owed(
    alloc: Global,
    before: u32,
    retry: u32,
    verdict: &Verdict,
) -> Result<Option<Kept<Step>>, NoMemory>
    ensures { IfOk result
        (λ step. option_to_list step ≡ steps_of_line tomoyo_grammar before retry verdict.now) }
{
    match verdict.reason {
        Reason::Learn => match &verdict.line {
            Some(line) => {
                let learn = Step::Learn(before, line.get().copy(alloc)?);
                Ok(Some(Kept::new(alloc, learn)?))
            }
            None => Ok(None),
        },
        Reason::Ask => match &verdict.line {
            Some(line) => {
                let ask = Step::Ask(before, retry, printed(alloc, line.get())?);
                Ok(Some(Kept::new(alloc, ask)?))
            }
            None => Ok(None),
        },
        Reason::Entry(_)
        | Reason::Disabled
        | Reason::Permissive
        | Reason::Quota
        | Reason::NoEntry
        | Reason::NotReady
        | Reason::NoManual => Ok(None),
    }
}

// The Make or the Fail that a move asks for.
pub(crate) fn lead_owed(
    alloc: Global,
    before: u32,
    verdict: &Verdict,
) -> Result<Option<Kept<Step>>, NoMemory>
    ensures { IfOk result (λ step. option_to_list step ≡ steps_of_move before verdict.now) }
{
    match verdict.step {
        Move::Make => match &verdict.target {
            Some(name) => {
                let make = Step::Make(before, name.copy(alloc)?);
                Ok(Some(Kept::new(alloc, make)?))
            }
            None => Ok(None),
        },
        Move::Fail => Ok(Some(Kept::new(alloc, Step::Fail(before))?)),
        Move::Stay | Move::Enter(_) => Ok(None),
    }
}

// The step of the move, where the verdict grants.
fn lead_if_granted(
    alloc: Global,
    before: u32,
    verdict: &Verdict,
) -> Result<Option<Kept<Step>>, NoMemory>
    ensures { IfOk result
        (λ step. option_to_list step
        ≡ (if is_granting verdict.now.reason then steps_of_move before verdict.now else [])) }
{
    if grants(&verdict.reason) {
        lead_owed(alloc, before, verdict)
    } else {
        Ok(None)
    }
}

// The steps that a verdict asks for at once.
pub(crate) fn steps_owed(
    alloc: Global,
    before: u32,
    retry: u32,
    verdict: &Verdict,
) -> Result<Owed, NoMemory>
    ensures { IfOk result
        (λ owed. owed_steps owed ≡ asked_of tomoyo_grammar before retry verdict.now) }
{
    let line = line_owed(alloc, before, retry, verdict)?;
    let lead = lead_if_granted(alloc, before, verdict)?;
    Ok(Owed { line, lead })
}

impl Owed {
    // No step.
    pub(crate) fn nothing() -> Owed
        ensures { owed_steps result ≡ [] }
    {
        Owed {
            line: None,
            lead: None,
        }
    }

    // Whether no step is owed.
    pub(crate) fn is_nothing(&self) -> bool
        ensures { result ≡ is_empty (owed_steps self.now) }
    {
        match (&self.line, &self.lead) {
            (None, None) => true,
            (Some(_), _) | (None, Some(_)) => false,
        }
    }

    // The first step, and what is owed after it; None where nothing is owed.
    pub(crate) fn first(self) -> Option<(Kept<Step>, Owed)>
        ensures { MatchOption result (owed_steps self ≡ [])
            (λ next. owed_steps self ≡ next.0 ∷ owed_steps next.1) }
    {
        let Owed { line, lead } = self;
        match line {
            Some(step) => Some((step, Owed { line: None, lead })),
            None => match lead {
                Some(step) => Some((step, Owed::nothing())),
                None => None,
            },
        }
    }
}
