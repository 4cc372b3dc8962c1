//! A look at a machine, and a copy of the policy that it looks at.
ghost use Rattle.std.specs.Prelude.{◌≡◌, true, IsTrue};
ghost use Rattle.std.specs.List.{list_all, AllByRecursion};
ghost use Rattle.std.specs.Option.{IfSome};
ghost use Rattle.tm_rules.specs.Types.{Tree};
ghost use Rattle.tm_rules.specs.Prelude.{is_request, item_is_request};
ghost use Rattle.tm_grammar.specs.Tomoyo.{tomoyo_grammar};
ghost use Rattle.tm_legal.specs.Prelude.{IsNamed};
ghost use Rattle.tm_tests_alone.specs.Opened.{CanBePlayed};

use crate::opened::{Opened, open_machine};
use std::alloc::Global;
use std::process::Abort;
use std::test::Fail;
use tm_core::{judge, verdict};
use tm_io::FileName;
use tm_list::NoMemory;
use tm_machine::Machine;
use tm_rep::Rep;
use tm_text::{print_domain, print_exception, print_manager, print_profile};
use tm_types::policy::{Mode, Policy};
use tm_types::request::{Ids, Item, Proc, Request, Tree};
use tm_types::verdict::Reason;

// The first request of a trace.
fn first_request(trace: &[Tree]) -> Option<&Request>
    requires { AllByRecursion (λ (tree : Tree).
        IsTrue (list_all (item_is_request tomoyo_grammar.is_path) tree.records)) trace.now }
    ensures { IfSome result (λ request. is_request tomoyo_grammar.is_path request.now ≡ true) }
{
    let tree = trace.first()?;
    match tree.records.as_slice().first()? {
        Item::Do(_, request) => Some(request),
        _ => None,
    }
}

// Process 1, of root.
fn process() -> Proc {
    Proc {
        pid: 1,
        ppid: 0,
        ids: Ids {
            uid: 0,
            euid: 0,
            suid: 0,
            fsuid: 0,
            gid: 0,
            egid: 0,
            sgid: 0,
            fsgid: 0,
        },
    }
}

// What is judged of the request in the first domain, and the verdict alone: whether both find no
// entry while the domain is enforcing, and whether there is an audit text.
fn is_denied<R: Rep>(
    alloc: Global,
    machine: &Machine<R>,
    request: &Request,
) -> Result<bool, NoMemory>
    requires named { IsNamed tomoyo_grammar.is_path machine.now.state.policy }
    requires asked { is_request tomoyo_grammar.is_path request.now ≡ true }
{
    let process = process();
    let Some(judged) = judge(alloc, machine, 0, &process, request)? else {
        return Ok(false);
    };
    let alone = verdict(alloc, machine, 0, &process, request)?;
    Ok(
        judged.audit.is_some()
            && matches!(judged.verdict.reason, Reason::NoEntry)
            && matches!(alone.reason, Reason::NoEntry)
            && matches!(alone.mode, Some(Mode::Enforcing)),
    )
}

// The four printed files of a policy, one after the other.
fn policy_text(alloc: Global, policy: &Policy) -> Result<Vec<u8>, NoMemory> {
    let mut text = Vec::new(alloc);
    print_profile(alloc, policy, &mut text)?;
    print_exception(alloc, policy, &mut text)?;
    print_domain(alloc, policy, &mut text)?;
    print_manager(alloc, policy, &mut text)?;
    Ok(text)
}

// Whether a copy of the machine's representation is of the same policy, which prints as more than
// so many bytes.
fn is_copied<R: Rep>(alloc: Global, machine: &Machine<R>, least: usize) -> Result<bool, NoMemory> {
    let copy = machine.rep().copy(alloc)?;
    let own = policy_text(alloc, machine.policy())?;
    let text = policy_text(alloc, copy.policy())?;
    Ok(own.len() > least && text.as_slice() == own.as_slice())
}

const TEXTS: [(FileName, &str); 5] = [
    (
        FileName::Profile,
        "0-CONFIG={ mode=enforcing grant_log=no reject_log=yes }\n",
    ),
    (FileName::ExceptionPolicy, "path_group LOGS /var/log/\\*\n"),
    (FileName::DomainPolicy, "<kernel>\nfile read /b\n"),
    (FileName::Manager, "/usr/sbin/admin\n"),
    (FileName::Trace, "tree 1 <kernel>\ndo 1 file read /a\n"),
];

#[test]
fn a_verdict_is_asked_of_a_machine(rt: HostRuntime) -> Result<(), Fail> {
    let alloc = rt.alloc();
    let Opened { machine, trace, .. } = open_machine(alloc, &TEXTS)?;
    let request = first_request(trace.as_slice()).ok_or("a request")?;
    assert!(rt; is_denied(alloc, &machine, request)?);
    Ok(())
}

#[test]
fn a_copied_representation_is_of_the_same_policy(rt: HostRuntime) -> Result<(), Fail> {
    let alloc = rt.alloc();
    let Opened { machine, .. } = open_machine(alloc, &TEXTS)?;
    assert!(rt; is_copied(alloc, &machine, 100)?);
    Ok(())
}
