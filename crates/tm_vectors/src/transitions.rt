//! Where an execute leads.
ghost use Rattle.std.specs.Prelude.{◌≡◌, ℕ, List, IfOk, unwrap_or};
ghost use Rattle.tm_rules.specs.Prelude.{target_name};
ghost use Rattle.tm_rules.specs.Transition.{By_control};
ghost use Rattle.tm_domain.specs.Names.{preferred_name};
ghost use Rattle.tm_vectors.specs.Answers.{control_of, said_control, control_line, controls_of, bar_lines, kernel_with, domain_after};

use crate::lines::said_by;
use crate::pieces::pieces;
use std::alloc::{AllocError, Global};
use tm_domain::{DomainFault, preferred};
use tm_except::control_kind;
use tm_list::{Map, NoMemory, Seq};
use tm_types::entry::Prefer;
use tm_types::policy::{Control, ControlKind, ExceptRule, Namespace, PolicyLine};
use tm_types::step::FileKind;
use tm_types::unions::{DomainName, Groups};
use tm_word::Text;

/// The namespace `<kernel>` with these controls alone.
fn namespace_with(alloc: Global, controls: Seq<Control>) -> Result<Namespace, NoMemory>
    ensures { IfOk result (λ namespace. namespace ≡ kernel_with controls) }
{
    Ok(Namespace {
        name: Seq::from_bytes(alloc, b"<kernel>")?,
        profiles: Map::new(alloc),
        groups: Groups {
            paths: Seq::new(alloc),
            numbers: Seq::new(alloc),
            addrs: Seq::new(alloc),
        },
        aggregators: Seq::new(alloc),
        controls,
        acl_groups: Map::new(alloc),
    })
}

/// The control that a rule is, if it is one.
fn control_of(rule: ExceptRule) -> Option<Control>
    ensures { result ≡ control_of rule }
{
    match rule {
        ExceptRule::Control(control) => Some(control),
        ExceptRule::PathGroup(_, _) => None,
        ExceptRule::NumberGroup(_, _) => None,
        ExceptRule::AddressGroup(_, _) => None,
        ExceptRule::Aggregator(_, _) => None,
        ExceptRule::Acl(_, _) => None,
    }
}

/// The control that is said, if one is.
fn said_control(said: PolicyLine) -> Option<Control>
    ensures { result ≡ said_control said }
{
    match said {
        PolicyLine::Exception(line) => control_of(line.rule),
        PolicyLine::Nothing
        | PolicyLine::Profile(_)
        | PolicyLine::Group(_)
        | PolicyLine::Domain(_)
        | PolicyLine::Manager(_, _) => None,
    }
}

/// The control that a line of `exception_policy` adds; none where it adds no control.
fn read_control(alloc: Global, line: &[u8]) -> Result<Option<Control>, NoMemory>
    ensures { IfOk result (λ control. control ≡ control_line line.now) }
{
    match said_by(alloc, FileKind::Exception, line)? {
        Some(said) => Ok(said_control(said)),
        None => Ok(None),
    }
}

/// The lines of a text with `|` between them; an empty text has none.
fn bar_lines(alloc: Global, text: &[u8]) -> Result<Vec<Text>, NoMemory>
    ensures { IfOk result (λ lines. lines.items ≡ bar_lines text.now) }
{
    if text.is_empty() {
        Ok(Vec::new(alloc))
    } else {
        pieces(alloc, b'|', text)
    }
}

/// The controls that these lines add, in their order; none where one of them adds no control.
fn read_controls(alloc: Global, lines: &[Text]) -> Result<Option<Seq<Control>>, NoMemory>
    ensures { IfOk result (λ controls. controls ≡ controls_of lines.now) }
{
    let mut controls = Seq::new(alloc);
    for line in lines {
        let Some(control) = read_control(alloc, line.bytes())? else {
            return Ok(None);
        };
        controls.push(control)?;
    }
    Ok(Some(controls))
}

/// The preference that leads where a control of this kind leads: to reset, to initialize or to
/// keep; else to the domain below.
#[tactic(auto, unfolding(tm_domain::specs::Names::preferred_name, tm_rules::specs::Transition::target_name))]
fn prefer_of(kind: ControlKind) -> Prefer
    ensures { (domain program : List ℕ) →
        preferred_name domain program result ≡ unwrap_or (target_name domain program (By_control kind)) domain }
{
    match kind {
        ControlKind::Reset => Prefer::Reset,
        ControlKind::Initialize => Prefer::Initialize,
        ControlKind::Keep => Prefer::Keep,
        ControlKind::NoReset
        | ControlKind::NoInitialize
        | ControlKind::NoKeep
        | ControlKind::Ordinary => Prefer::Child,
    }
}

/// The domain to which an execute of a program leads from a domain, under the controls that these
/// lines add, with `|` between them; none where one of the lines adds no control, or where no
/// domain can have that name.
pub fn domain_after(
    alloc: Global,
    domain: &DomainName,
    program: &[u8],
    lines: &[u8],
) -> Result<Option<DomainName>, NoMemory>
    ensures { IfOk result (λ name. name ≡ domain_after domain.now program.now lines.now) }
{
    let Some(controls) = read_controls(alloc, &bar_lines(alloc, lines)?)? else {
        return Ok(None);
    };
    let namespace = namespace_with(alloc, controls)?;
    let kind = control_kind(&namespace, domain, program);
    match preferred(alloc, domain, program, &prefer_of(kind)) {
        Ok(name) => Ok(Some(name)),
        Err(DomainFault::NoMemory) => Err(AllocError),
        Err(_) => Ok(None),
    }
}
