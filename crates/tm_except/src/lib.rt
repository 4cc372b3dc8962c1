//! The rules of the exception policy: its lines, aggregators, and the domain transition controls.
//! Stands on the steps of `tm_line`, on `tm_pattern`, `tm_domain` and the rules of `tm_rules`.
//! Of its own, on neither tm_profile nor tm_entry: tm_policy_line joins the three.
//! Promises the grammar, the first aggregator that matches, and controls tried in their order.
#![tactic(auto)]

ghost use Rattle.std.specs.Prelude.{◌≡◌, ◌==◌, ◌&&◌, not, ℕ, List, option_map};
ghost use Rattle.std.specs.List.{find, list_any};
ghost use Rattle.std.specs.Option.{option_copied};
ghost use Rattle.tm_rules.specs.Types.{Component};
ghost use Rattle.tm_word.specs.Prelude.{matches};
ghost use Rattle.tm_rules.specs.Prelude.{aggregated, control_kind, control_matches, kind_number, some_control};

mod printing;
mod reading;
mod sides;

pub use printing::{print_lists, print_rule, printed_words, round_trip};
pub use reading::{Head, literal_word, read_exception};
use tm_line::domain::last_word;
use tm_pattern::matches;
use tm_types::policy::{Control, ControlKind, Namespace};
use tm_types::unions::DomainName;
use tm_word::{Pattern, Text, Word, bytes_equal};

// The second name of the first aggregator whose first name matches.
fn find_name<'a>(aggregators: &'a [(Pattern, Word)], path: &Word) -> Option<&'a Word>
    ensures { option_copied result
        ≡ option_map (λ (pair : List Component × List ℕ). pair.1)
        (find (λ (pair : List Component × List ℕ). matches pair.0 path.now) aggregators.now) }
{
    for (first, second) in aggregators {
        if matches(first, path) {
            return Some(second);
        }
    }
    None
}

/// The aggregated name of an executed path: the second name of the first `aggregator` of the
/// namespace whose first name matches it, else the path itself. Takes no memory.
#[tactic(auto, unfolding(tm_rules::specs::Search::aggregated))]
pub fn aggregated<'a>(namespace: &'a Namespace, path: &'a Word) -> &'a Word
    ensures { result.now ≡ aggregated namespace.now path.now }
{
    match find_name(namespace.aggregators.as_slice(), path) {
        Some(name) => name,
        None => path,
    }
}

/// The place of a kind in the order in which they are tried.
fn kind_number(kind: ControlKind) -> u8
    ensures { result ≡ kind_number kind }
{
    kind as u8
}

/// Whether a control's program is `any` or the candidate, and its domain `any`, the domain's name,
/// or a path that is its last word.
#[tactic(auto, unfolding(tm_rules::specs::Transition::control_matches))]
fn control_matches(domain: &DomainName, candidate: &[u8], control: &Control) -> bool
    ensures { result ≡ control_matches domain.now candidate.now control.now }
{
    if let Some(program) = &control.program {
        if !bytes_equal(program.bytes(), candidate) {
            return false;
        }
    }
    match &control.domain {
        None => true,
        Some(text) => {
            if control.last {
                bytes_equal(text.bytes(), last_word(domain))
            } else {
                bytes_equal(text.bytes(), domain.bytes())
            }
        }
    }
}

/// Whether some control of this kind matches.
fn has_control(
    controls: &[Control],
    domain: &DomainName,
    candidate: &[u8],
    kind: ControlKind,
) -> bool
    ensures { result
        ≡ list_any
        (λ control. kind_number control.kind == kind_number kind
        && control_matches domain.now candidate.now control)
        controls.now }
{
    for control in controls {
        if kind_number(control.kind) == kind_number(kind)
            && control_matches(domain, candidate, control)
        {
            return true;
        }
    }
    false
}

/// Whether some control of this kind matches in a namespace.
fn some_control(
    namespace: &Namespace,
    domain: &DomainName,
    candidate: &[u8],
    kind: ControlKind,
) -> bool
    ensures { result ≡ some_control namespace.now domain.now candidate.now kind }
{
    has_control(namespace.controls.as_slice(), domain, candidate, kind)
}

/// Whether some control of this kind matches, and none that skips it.
fn unskipped(
    namespace: &Namespace,
    domain: &DomainName,
    candidate: &[u8],
    kind: ControlKind,
    skips: ControlKind,
) -> bool
    ensures { result
        ≡ (some_control namespace.now domain.now candidate.now kind
        && not (some_control namespace.now domain.now candidate.now skips)) }
{
    some_control(namespace, domain, candidate, kind)
        && !some_control(namespace, domain, candidate, skips)
}

/// The kind of control that decides where an execute leads: `no_reset_domain` skips `reset_domain`,
/// `no_initialize_domain` skips `initialize_domain`, and the first of `reset_domain`,
/// `initialize_domain`, `no_keep_domain` and `keep_domain` that is left and matches decides;
/// `Ordinary` where none does. Takes no memory.
#[tactic(auto, unfolding(tm_rules::specs::Transition::control_kind))]
pub fn control_kind(namespace: &Namespace, domain: &DomainName, candidate: &[u8]) -> ControlKind
    ensures { result ≡ control_kind namespace.now domain.now candidate.now }
{
    let reset = ControlKind::Reset;
    if unskipped(namespace, domain, candidate, reset, ControlKind::NoReset) {
        return reset;
    }
    let initialize = ControlKind::Initialize;
    if unskipped(
        namespace,
        domain,
        candidate,
        initialize,
        ControlKind::NoInitialize,
    ) {
        return initialize;
    }
    if some_control(namespace, domain, candidate, ControlKind::NoKeep) {
        return ControlKind::NoKeep;
    }
    if some_control(namespace, domain, candidate, ControlKind::Keep) {
        return ControlKind::Keep;
    }
    ControlKind::Ordinary
}
