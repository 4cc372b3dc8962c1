//! Which domains a process may be in after one transition.
ghost use Rattle.std.specs.Prelude.{◌≡◌, IfOk};
ghost use Rattle.tm_log_processes.specs.Domains.{leads};

use std::alloc::Global;
use tm_domain::{namespace, parent};
use tm_list::NoMemory;
use tm_types::unions::DomainName;
use tm_word::{bytes_equal, texts_equal};

/// Whether one reset, child or initialize transition may lead from a domain to another: to a
/// namespace word, to the domain with one more word, or to its namespace word with one more word.
#[tactic(auto, unfolding(crate::specs::Domains::leads))]
pub fn leads(alloc: Global, from: &DomainName, to: &DomainName) -> Result<bool, NoMemory>
    ensures { IfOk result (λ found. found ≡ leads from.now to.now) }
{
    match parent(alloc, to)? {
        None => Ok(true),
        Some(front) => {
            Ok(texts_equal(&front, from) || bytes_equal(front.bytes(), namespace(from)))
        }
    }
}
