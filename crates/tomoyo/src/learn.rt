//! The rerun of a run: the same trace under the run's final policy with its profiles enforcing.
ghost use Rattle.std.specs.Prelude.{◌≡◌, IfOk, IfErr, None};
ghost use Rattle.tm_rules.specs.Prelude.{IsFew};
ghost use Rattle.tm_run_laws.specs.Tomoyo.{tomoyo_grammar};
ghost use Rattle.tm_legal.specs.Prelude.{CanPlay, alone};
ghost use Rattle.tm_trace.specs.Written.{IsTrace};
ghost use Rattle.tm_call.specs.declared.words.How.{How};
ghost use Rattle.tm_gen_laws.specs.Reading.{refused, RefusedBy};
ghost use Rattle.tomoyo.specs.Play.{reading_of};
ghost use Rattle.tomoyo.specs.Closures.{IsPlayable, PlaysSo};
ghost use Rattle.tomoyo.specs.Rerun.{nobody_else, CanRerun, IsPlayAlone, IsRerunPrinted, Reruns, LearnsLoaded, Learns};

use crate::play::{Played, audits_of, read_played, texts_of};
use crate::runs::{Ended, play_by, run_by_turns};
use std::alloc::Global;
use tm_call::{How, Status};
use tm_gen_laws::call_input::{Loaded, homeless};
use tm_io::FileList;
use tm_list::{Copied, NoMemory, Seq};
use tm_rerun::{has_same_domains, rerun_line, switched};
use tm_rerun_laws::{
    clean_runs_grow, learned_runs_repeat, switched_domains, switched_stays_opened,
};
use tm_run::print_run;
use tm_types::policy::Policy;
use tm_types::request::Trace;
use tm_types::step::{Book, Run};
use tm_verify::indexed::Indexed;
use tm_word::Text;

/// What a rerun gives: the text of its run, the audit texts of its takes, and the line that it adds
/// to the summary.
#[derive(Drop)]
pub struct RerunTexts {
    pub run: Text,
    pub audit: Text,
    pub line: Text,
}

/// What a play with a rerun gives: what the play of the files gives, and the rerun of its run where
/// that isn't left out.
#[derive(Drop)]
pub struct Learned {
    pub played: Played,
    pub rerun: Option<RerunTexts>,
}

// A policy and a trace with nobody else: no editors, a book without a line, and no schedule.
fn nobody_else(alloc: Global, policy: Indexed, trace: Trace) -> Loaded
    ensures { result ≡ nobody_else policy trace }
{
    Loaded {
        policy,
        trace,
        editors: Seq::new(alloc),
        book: Book {
            rules: Seq::new(alloc),
            stop: None,
        },
        schedule: Seq::new(alloc),
    }
}

/// Plays a trace under a policy with nobody else: without editors, without a supervisor, and in the
/// default order from the first turn on. Gives the run, and the policy at its last version.
///
/// Errors: want of memory.
pub fn rerun(alloc: Global, policy: Indexed, trace: Trace) -> Result<(Run, Policy), NoMemory>
    requires few { IsFew policy }
    requires can { CanPlay (alone tomoyo_grammar policy trace) }
    ensures { IfOk result (λ ended.
        IsPlayAlone How.ByTurns (alone tomoyo_grammar policy trace) ended.0 ended.1) }
{
    let loaded = nobody_else(alloc, policy, trace);
    let (run, _, last) = run_by_turns(alloc, loaded)?;
    Ok((run, last))
}

// The texts of a rerun, and whether it is in the domains of the first run.
fn print_rerun(
    alloc: Global,
    first_last: &Policy,
    first: &Run,
    last: &Policy,
    run: &Run,
) -> Result<RerunTexts, NoMemory>
    ensures { IfOk result (IsRerunPrinted first_last.now first.now last.now run.now) }
{
    let mut text = Vec::new(alloc);
    print_run(alloc, run, &mut text)?;
    let audit = audits_of(alloc, run.takes.as_slice())?;
    let same = has_same_domains(first_last, first, last, run);
    let line = rerun_line(alloc, run, same)?;
    Ok(RerunTexts {
        run: Text::from_vec(text),
        audit,
        line: Text::from_vec(line),
    })
}

// Plays a trace under a policy with nobody else.
fn play_alone<P: Fn(How, Loaded) -> Ended>(
    alloc: Global,
    play: &P,
    how: How,
    policy: Indexed,
    trace: Trace,
) -> Result<(Run, Policy), NoMemory>
    requires so { PlaysSo P.Fn how play.now }
    requires few { IsFew policy }
    requires can { CanPlay (alone tomoyo_grammar policy trace) }
    requires written { IsTrace trace }
    ensures { IfOk result (λ ended.
        IsPlayAlone how (alone tomoyo_grammar policy trace) ended.0 ended.1) }
{
    let loaded = nobody_else(alloc, policy, trace);
    let (run, _, last) = play_by(play, how, loaded)?;
    Ok((run, last))
}

// The rerun of a run that has led to this policy; None where some tree has no live domain to start
// in. The domains of the switched policy are those of this one.
fn rerun_of<P: Fn(How, Loaded) -> Ended>(
    alloc: Global,
    play: &P,
    how: How,
    run: &Run,
    last: &Policy,
    trace: Trace,
) -> Result<Option<RerunTexts>, NoMemory>
    requires so { PlaysSo P.Fn how play.now }
    requires few { IsFew last.now }
    requires can { CanRerun last.now trace }
    requires written { IsTrace trace }
    ensures { IfOk result (Reruns how last.now trace run.now) }
{
    switched_domains();
    switched_stays_opened();
    let policy = switched(alloc, last)?;
    let enforcing = Indexed::new(alloc, policy)?;
    if homeless(&enforcing, trace.as_slice()).is_some() {
        return Ok(None);
    }
    let (again, ended) = play_alone(alloc, play, how, enforcing, trace)?;
    let texts = print_rerun(alloc, last, run, &ended, &again)?;
    Ok(Some(texts))
}

// Plays what was read, and then its trace again.
fn learn_loaded<P: Fn(How, Loaded) -> Ended>(
    alloc: Global,
    play: &P,
    how: How,
    loaded: Loaded,
) -> Result<Learned, NoMemory>
    requires so { PlaysSo P.Fn how play.now }
    requires playable { IsPlayable loaded }
    ensures { IfOk result (LearnsLoaded how loaded) }
{
    clean_runs_grow();
    learned_runs_repeat();
    // A play takes its trace apart, tree by tree, so that the second play has a copy, which has the
    // requests together with the first: its text isn't read again.
    let trace = loaded.trace.copy(alloc)?;
    let (run, opening, last) = play_by(play, how, loaded)?;
    let played = texts_of(alloc, &run, &opening.policy, &last)?;
    let rerun = rerun_of(alloc, play, how, &run, &last, trace)?;
    Ok(Learned { played, rerun })
}

/// Plays what the files hold, and then its trace again under the final policy with its profiles
/// enforcing, or refuses it.
pub fn learn_of<P: Fn(How, Loaded) -> Ended>(
    alloc: Global,
    play: &P,
    how: How,
    texts: FileList,
) -> Result<Learned, Status>
    requires so { PlaysSo P.Fn how play.now }
    ensures learned { IfOk result (λ learned.
        (refused (reading_of how texts) ≡ None) × Learns how texts learned) }
    ensures refused { IfErr result (RefusedBy (refused (reading_of how texts))) }
{
    switched_domains();
    switched_stays_opened();
    let loaded = match read_played(alloc, how, texts) {
        Ok(loaded) => loaded,
        Err(status) => return Err(status),
    };
    match learn_loaded(alloc, play, how, loaded) {
        Ok(learned) => Ok(learned),
        Err(_) => Err(Status::OutOfMemory),
    }
}
