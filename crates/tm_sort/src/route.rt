//! Which rule takes a record.
ghost use Rattle.std.specs.Prelude.{◌≡◌, map, IfOk};
ghost use Rattle.std.specs.List.{list_any, list_all, AllByRecursion};
ghost use Rattle.tm_word.specs.Prelude.{matches, words_of};
ghost use Rattle.tm_sort.specs.Routes.{each_found, header_matches, accepts, dest, route_rule, IsRoute, MakesRoutes};

use crate::record::Record;
use crate::rules::Rule;
use std::alloc::Global;
use tm_list::NoMemory;
use tm_pattern::matches_bytes;
use tm_script::list_matches;
use tm_types::step::ListWords;
use tm_word::{Pattern, cut_word};

/// Whether a pattern matches some word of a text.
fn is_found(pattern: &Pattern, text: &[u8]) -> bool
    ensures { result ≡ list_any (matches pattern.now) (words_of text.now) }
{
    let mut rest = text;
    while let Some((word, after)) = cut_word(rest) {
        if matches_bytes(pattern, word) {
            return true;
        }
        rest = after;
    }
    false
}

/// Whether each pattern matches some word of a text.
fn each_found(patterns: &[Pattern], text: &[u8]) -> bool
    ensures { result ≡ each_found patterns.now text.now }
{
    for pattern in patterns {
        if !is_found(pattern, text) {
            return false;
        }
    }
    true
}

fn header_matches(list: &ListWords, text: &[u8]) -> bool
    ensures { result ≡ header_matches list.now text.now }
{
    each_found(list.patterns.as_slice(), text)
}

/// Whether a rule accepts a record: the two lists match the words of the second and the third line,
/// and each header pattern matches some word of the first, which has the most words and is looked
/// at last. Takes no memory.
#[tactic(auto, unfolding(crate::specs::Routes::accepts))]
pub fn accepts(rule: &Rule, item: &Record) -> bool
    ensures { result ≡ accepts rule.now item.now }
{
    list_matches(&rule.domain, item.domain.bytes())
        && list_matches(&rule.line, item.line.bytes())
        && header_matches(&rule.header, item.header.bytes())
}

/// A rule beside a closure that answers as the rule accepts.
#[derive(Drop)]
pub struct Route<'a, F> {
    rule: &'a Rule,
    accept: F,
}

impl<'a, F: Fn(&Record) -> bool> Route<'a, F> {
    ghost use Rattle.tm_sort.specs.Routes.{AnswersRule, route_rule, IsRoute};

    /// A route of this rule. The closure may be called on every record, and answers whether the
    /// rule accepts it.
    /// Takes no memory.
    #[tactic(auto, unfolding(crate::specs::Routes::route_rule, crate::specs::Routes::IsRoute))]
    pub fn new(rule: &'a Rule, accept: F) -> Route<'a, F>
        requires { AnswersRule F.Fn accept rule.now }
        ensures kept { IsRoute F.Fn result }
        ensures rule { route_rule result ≡ rule.now }
    {
        Route { rule, accept }
    }

    /// Whether the rule accepts a record. Takes no memory.
    #[tactic(auto, unfolding(crate::specs::Routes::route_rule, crate::specs::Routes::IsRoute))]
    pub fn accepts(&self, item: &Record) -> bool
        requires { IsRoute F.Fn self.now }
        ensures { result ≡ accepts (route_rule self.now) item.now }
    {
        (self.accept)(item)
    }

    /// The part that takes what the rule accepts. Takes no memory.
    #[tactic(auto, unfolding(crate::specs::Routes::route_rule))]
    pub fn dest(&self) -> u8
        ensures { result ≡ (route_rule self.now).dest }
    {
        self.rule.dest
    }
}

/// The part of the first rule that accepts a record, 0 where none does. Takes no memory.
pub fn dest_of<F: Fn(&Record) -> bool>(routes: &[Route<'_, F>], item: &Record) -> u8
    requires { AllByRecursion (IsRoute F.Fn) routes.now }
    ensures { result ≡ dest (map route_rule routes.now) item.now }
{
    for route in routes {
        if route.accepts(item) {
            return route.dest();
        }
    }
    0
}

/// A route of each rule, in order, as the closure makes it: the closure may be called on every
/// rule, and makes a route of it.
pub fn routes_by<'a, F: Fn(&Record) -> bool, M: Fn(&'a Rule) -> Route<'a, F>>(
    alloc: Global,
    rules: &'a [Rule],
    make: M,
) -> Result<Vec<Route<'a, F>>, NoMemory>
    requires { MakesRoutes F.Fn M.Fn make }
    ensures kept { IfOk result (λ routes. AllByRecursion (IsRoute F.Fn) routes.items) }
    ensures same { IfOk result (λ routes. map route_rule routes.items ≡ rules.now) }
{
    let mut routes = Vec::new(alloc);
    for rule in rules {
        routes.push(make(rule))?;
    }
    Ok(routes)
}
