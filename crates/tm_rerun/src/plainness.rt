//! Whether a policy is plain: nothing is executed under conditions that learning doesn't write.
ghost use Rattle.std.specs.Prelude.{◌≡◌};
ghost use Rattle.std.specs.List.{list_all};
ghost use Rattle.tm_rules.specs.Prelude.{are_plain_groups, has_permission, is_plain, is_plain_clause, is_plain_domain, is_plain_entry, lets_execute};

use tm_list::Seq;
use tm_types::entry::{Args, Attr, Clause, Entry};
use tm_types::policy::{Domain, Namespace, Policy};

fn is_plain_clause(clause: &Clause) -> bool
    ensures { result ≡ is_plain_clause clause.now }
{
    match &clause.left {
        Attr::RealPath => true,
        Attr::Argv(place) => *place == 0,
        _ => false,
    }
}

// Whether the first permission of a row, which is `execute` in that of one path, is among these.
fn has_execute(bits: u16) -> bool
    ensures { result ≡ has_permission bits 0 }
{
    bits & 1 == 1
}

fn lets_execute(entry: &Entry) -> bool
    ensures { result ≡ lets_execute entry.now }
{
    match &entry.args {
        Args::Path(_) => has_execute(entry.perms.bits),
        Args::Execute(_, _) => has_execute(entry.perms.bits),
        _ => false,
    }
}

fn are_plain_clauses(clauses: &[Clause]) -> bool
    ensures { result ≡ list_all is_plain_clause clauses.now }
{
    for clause in clauses {
        if !is_plain_clause(clause) {
            return false;
        }
    }
    true
}

fn is_plain_entry(entry: &Entry) -> bool
    ensures { result ≡ is_plain_entry entry.now }
{
    !lets_execute(entry) || are_plain_clauses(entry.cond.clauses.as_slice())
}

fn are_plain_entries(entries: &[Entry]) -> bool
    ensures { result ≡ list_all is_plain_entry entries.now }
{
    for entry in entries {
        if !is_plain_entry(entry) {
            return false;
        }
    }
    true
}

fn is_plain_domain(domain: &Domain) -> bool
    ensures { result ≡ is_plain_domain domain.now }
{
    !domain.live || are_plain_entries(domain.entries.as_slice())
}

fn are_plain_domains(domains: &[Domain]) -> bool
    ensures { result ≡ list_all is_plain_domain domains.now }
{
    for domain in domains {
        if !is_plain_domain(domain) {
            return false;
        }
    }
    true
}

fn are_plain_groups(groups: &[(u8, Seq<Entry>)]) -> bool
    ensures { result ≡ list_all (λ group. list_all is_plain_entry group.1) groups.now }
{
    for group in groups {
        if !are_plain_entries(group.1.as_slice()) {
            return false;
        }
    }
    true
}

fn are_plain_namespaces(namespaces: &[Namespace]) -> bool
    ensures { result ≡ list_all are_plain_groups namespaces.now }
{
    for namespace in namespaces {
        if !are_plain_groups(namespace.acl_groups.as_slice()) {
            return false;
        }
    }
    true
}

/// Whether each entry that lets something be executed, of live domains and of ACL groups, has no
/// other conditions than those on `exec.realpath` and `exec.argv[0]`, as learned lines have them.
/// Takes no memory.
#[tactic(auto, unfolding(tm_rules::specs::Clean::is_plain))]
pub fn is_plain(policy: &Policy) -> bool
    ensures { result ≡ is_plain policy.now }
{
    are_plain_domains(policy.domains.as_slice())
        && are_plain_namespaces(policy.namespaces.as_slice())
}
