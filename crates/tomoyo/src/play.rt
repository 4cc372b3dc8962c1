//! The play of the files: what they hold is read and played, and the run is printed and summed up.
ghost use Rattle.std.specs.Prelude.{◌≡◌, ◌++◌, IfOk, IfErr, OnOk, None};
ghost use Rattle.tm_run.specs.RunText.{run_text};
ghost use Rattle.tm_rerun.specs.Summary.{summary_text};
ghost use Rattle.tm_text.specs.DomainText.{domain_text};
ghost use Rattle.tm_text.specs.ExceptionText.{exception_text};
ghost use Rattle.tm_text.specs.ManagerText.{manager_text};
ghost use Rattle.tm_text.specs.ProfileText.{profile_text};
ghost use Rattle.tm_word.specs.Prelude.{Gives};
ghost use Rattle.tm_rules.specs.Prelude.{IsFew};
ghost use Rattle.tm_call.specs.declared.words.How.{How};
ghost use Rattle.tm_gen_laws.specs.Reading.{refused, status_cause, RefusedBy};
ghost use Rattle.tomoyo.specs.Play.{reading_of, PlaysLoaded, Plays, audit_word, audits_of};
ghost use Rattle.tomoyo.specs.Play.{IsPrinted, IsPolicyPrinted};
ghost use Rattle.tomoyo.specs.Closures.{IsPlayable, PlaysSo};

use crate::runs::{Ended, play_by};
use std::alloc::Global;
use tm_call::{How, Status};
use tm_gen_laws::call_input::{Loaded, read_scene, read_step};
use tm_io::FileList;
use tm_list::NoMemory;
use tm_rerun::summary_line;
use tm_run::print_run;
use tm_text::{print_domain, print_exception, print_manager, print_profile};
use tm_types::policy::Policy;
use tm_types::step::{Run, Take};
use tm_word::Text;

/// The printed files of a policy.
#[derive(Drop)]
pub struct Printed {
    pub profile: Text,
    pub exception: Text,
    pub domain: Text,
    pub manager: Text,
}

/// What a play gives: the text of its run, the audit texts of its takes, the printed files of its
/// final policy, and the line that sums it up.
#[derive(Drop)]
pub struct Played {
    pub run: Text,
    pub audit: Text,
    pub policy: Printed,
    pub summary: Text,
}

// Appends the audit text of a take, where it has one.
fn push_audit(take: &Take, out: &mut Vec<u8>) -> Result<(), NoMemory>
    ensures { OnOk result (out.new.items ≡ out.old.items ++ audit_word take.now) }
{
    match &take.audit {
        Some(text) => out.extend_from_slice(text.bytes()),
        None => Ok(()),
    }
}

// The audit texts of these takes, joined.
pub(crate) fn audits_of(alloc: Global, takes: &[Take]) -> Result<Text, NoMemory>
    ensures { IfOk result (λ text. text ≡ audits_of takes.now) }
{
    let mut text = Vec::new(alloc);
    for take in takes {
        push_audit(take, &mut text)?;
    }
    Ok(Text::from_vec(text))
}

/// The printed files of a policy.
pub fn print_policy(alloc: Global, policy: &Policy) -> Result<Printed, NoMemory>
    ensures { IfOk result (IsPolicyPrinted policy.now) }
{
    let mut profile = Vec::new(alloc);
    print_profile(alloc, policy, &mut profile)?;
    let mut exception = Vec::new(alloc);
    print_exception(alloc, policy, &mut exception)?;
    let mut domain = Vec::new(alloc);
    print_domain(alloc, policy, &mut domain)?;
    let mut manager = Vec::new(alloc);
    print_manager(alloc, policy, &mut manager)?;
    Ok(Printed {
        profile: Text::from_vec(profile),
        exception: Text::from_vec(exception),
        domain: Text::from_vec(domain),
        manager: Text::from_vec(manager),
    })
}

// The texts of a run from an opening to a last policy.
pub(crate) fn texts_of(
    alloc: Global,
    run: &Run,
    opening: &Policy,
    last: &Policy,
) -> Result<Played, NoMemory>
    ensures { IfOk result (IsPrinted run.now opening.now last.now) }
{
    let mut text = Vec::new(alloc);
    print_run(alloc, run, &mut text)?;
    let audit = audits_of(alloc, run.takes.as_slice())?;
    let policy = print_policy(alloc, last)?;
    let summary = summary_line(alloc, run, opening, last)?;
    Ok(Played {
        run: Text::from_vec(text),
        audit,
        policy,
        summary: Text::from_vec(summary),
    })
}

/// Reads what is played so.
///
/// Errors: the first that is refused, a faulty line, a limit that is passed, or a tree whose domain
/// isn't live; want of memory.
pub fn read_played(alloc: Global, how: How, texts: FileList) -> Result<Loaded, Status>
    ensures exact { Gives status_cause (λ loaded. loaded) result (reading_of how texts) }
    ensures few { IfOk result (λ loaded. IsFew loaded.policy) }
{
    match how {
        How::ByTurns => read_step(alloc, texts),
        How::OnThreads(_) | How::Stealing(_) => read_scene(alloc, texts),
    }
}

// Plays what was read.
fn play_loaded<P: Fn(How, Loaded) -> Ended>(
    alloc: Global,
    play: &P,
    how: How,
    loaded: Loaded,
) -> Result<Played, NoMemory>
    requires so { PlaysSo P.Fn how play.now }
    requires playable { IsPlayable loaded }
    ensures { IfOk result (PlaysLoaded how loaded) }
{
    let (run, opening, last) = play_by(play, how, loaded)?;
    texts_of(alloc, &run, &opening.policy, &last)
}

/// Plays what the files hold, or refuses it.
pub fn play_of<P: Fn(How, Loaded) -> Ended>(
    alloc: Global,
    play: &P,
    how: How,
    texts: FileList,
) -> Result<Played, Status>
    requires so { PlaysSo P.Fn how play.now }
    ensures played { IfOk result (λ played.
        (refused (reading_of how texts) ≡ None) × Plays how texts played) }
    ensures refused { IfErr result (RefusedBy (refused (reading_of how texts))) }
{
    let loaded = match read_played(alloc, how, texts) {
        Ok(loaded) => loaded,
        Err(status) => return Err(status),
    };
    match play_loaded(alloc, play, how, loaded) {
        Ok(played) => Ok(played),
        Err(_) => Err(Status::OutOfMemory),
    }
}
