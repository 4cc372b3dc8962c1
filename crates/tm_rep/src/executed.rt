//! The name by which an execute is searched for.
ghost use Rattle.std.specs.Prelude.{◌≡◌, true};
ghost use Rattle.tm_rules.specs.Prelude.{aggregated, is_execute, path_of};

use tm_grammar::except::aggregated;
use tm_types::policy::Namespace;
use tm_types::request::Request;
use tm_word::Word;

/// The aggregated name of an execute: that of its path in its namespace. Takes no memory.
#[tactic(auto, using(crate::proofs::Executes::execute_path))]
pub fn executed_name<'a>(namespace: &'a Namespace, request: &'a Request) -> &'a Word
    requires { is_execute request.now ≡ true }
    ensures { result.now ≡ aggregated namespace.now (path_of request.now) }
{
    match request.name(0) {
        Some(path) => aggregated(namespace, path),
        None => unreachable!(),
    }
}
