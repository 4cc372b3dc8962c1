//! What commands store and put of what they have made.
ghost use Rattle.std.specs.Prelude.{◌≡◌, ◌++◌, IfOk, OnOk};
ghost use Rattle.tm_rules.specs.Prelude.{IsFew};
ghost use Rattle.tm_gen_laws.specs.Generated.{generated_files};
ghost use Rattle.tomoyo.specs.Call.{stores_of, policy_stores, step_outcome, rerun_stores, rerun_line, learn_outcome, with_files, print_outcome};

use crate::learn::{Learned, RerunTexts};
use crate::play::{Played, Printed, print_policy};
use crate::print::counts_line;
use std::alloc::Global;
use tm_call::Outcome;
use tm_gen::{Generated, generate};
use tm_io::{FileList, FileName};
use tm_list::NoMemory;
use tm_rerun::no_rerun_line;
use tm_types::policy::Policy;
use tm_word::Text;

// Appends a printed policy as files, in order.
fn push_policy(policy: Printed, stores: &mut FileList) -> Result<(), NoMemory>
    ensures { OnOk result (stores.new ≡ stores.old ++ policy_stores policy) }
{
    let Printed {
        profile,
        exception,
        domain,
        manager,
    } = policy;
    stores.push((FileName::ProfileNew, profile))?;
    stores.push((FileName::ExceptionPolicyNew, exception))?;
    stores.push((FileName::DomainPolicyNew, domain))?;
    stores.push((FileName::ManagerNew, manager))?;
    Ok(())
}

// Appends the text of a run, its audit texts and a printed policy to files, in order.
fn push_played(
    run: Text,
    audit: Text,
    policy: Printed,
    stores: &mut FileList,
) -> Result<(), NoMemory>
    ensures { OnOk result (stores.new ≡ stores.old ++ stores_of run audit policy) }
{
    stores.push((FileName::Run, run))?;
    stores.push((FileName::Audit, audit))?;
    push_policy(policy, stores)
}

// The text of a run, its audit texts and a printed policy as files, in order.
fn stores_of(alloc: Global, run: Text, audit: Text, policy: Printed) -> Result<FileList, NoMemory>
    ensures { IfOk result (λ stores. stores ≡ stores_of run audit policy) }
{
    let mut stores = FileList::new(alloc);
    push_played(run, audit, policy, &mut stores)?;
    Ok(stores)
}

/// What `step` stores and puts of what was played.
pub fn step_outcome(alloc: Global, played: Played) -> Result<Outcome, NoMemory>
    ensures { IfOk result (λ outcome. outcome ≡ step_outcome played) }
{
    let Played {
        run,
        audit,
        policy,
        summary,
    } = played;
    let stores = stores_of(alloc, run, audit, policy)?;
    Ok(Outcome {
        stores,
        line: summary,
    })
}

// Appends the files of a rerun, and its line to the summary; of a rerun that is left out, its line
// alone.
fn push_rerun(
    alloc: Global,
    rerun: Option<RerunTexts>,
    stores: &mut FileList,
    line: &mut Vec<u8>,
) -> Result<(), NoMemory>
    ensures stores { OnOk result (stores.new ≡ stores.old ++ rerun_stores rerun) }
    ensures line { OnOk result (line.new.items ≡ line.old.items ++ rerun_line rerun) }
{
    match rerun {
        None => line.extend_from_slice(&no_rerun_line(alloc)?),
        Some(rerun) => {
            let RerunTexts {
                run,
                audit,
                line: text,
            } = rerun;
            stores.push((FileName::Run2, run))?;
            stores.push((FileName::Audit2, audit))?;
            line.extend_from_slice(text.bytes())
        }
    }
}

/// What `learn` stores and puts of what was learned.
pub fn learn_outcome(alloc: Global, learned: Learned) -> Result<Outcome, NoMemory>
    ensures { IfOk result (λ outcome. outcome ≡ learn_outcome learned) }
{
    let Learned { played, rerun } = learned;
    let Played {
        run,
        audit,
        policy,
        summary,
    } = played;
    let mut stores = stores_of(alloc, run, audit, policy)?;
    let mut line = summary.into_vec();
    push_rerun(alloc, rerun, &mut stores, &mut line)?;
    Ok(Outcome {
        stores,
        line: Text::from_vec(line),
    })
}

/// The files that are generated from a seed and a size, in order.
pub fn generated_files(alloc: Global, seed: u64, size: u32) -> Result<FileList, NoMemory>
    ensures { IfOk result (λ files. files ≡ generated_files seed size) }
{
    let Generated {
        profile,
        exception,
        domain,
        manager,
        trace,
    } = generate(alloc, seed, size)?;
    let mut files = FileList::new(alloc);
    files.push((FileName::Profile, profile))?;
    files.push((FileName::ExceptionPolicy, exception))?;
    files.push((FileName::DomainPolicy, domain))?;
    files.push((FileName::Manager, manager))?;
    files.push((FileName::Trace, trace))?;
    Ok(files)
}

/// What is stored and put of these files, which are stored first, and of what was played of them.
pub fn with_files(files: FileList, played: Played) -> Result<Outcome, NoMemory>
    ensures { IfOk result (λ outcome. outcome ≡ with_files files played) }
{
    let Played {
        run,
        audit,
        policy,
        summary,
    } = played;
    let mut stores = files;
    push_played(run, audit, policy, &mut stores)?;
    Ok(Outcome {
        stores,
        line: summary,
    })
}

/// What `print` stores and puts of the policy that the files load to.
pub fn print_outcome(alloc: Global, policy: &Policy) -> Result<Outcome, NoMemory>
    requires { IsFew policy.now }
    ensures { IfOk result (λ outcome. outcome ≡ print_outcome policy.now) }
{
    let printed = print_policy(alloc, policy)?;
    let line = counts_line(alloc, policy)?;
    let mut stores = FileList::new(alloc);
    push_policy(printed, &mut stores)?;
    Ok(Outcome { stores, line })
}
