//! How much of a policy is live.
ghost use Rattle.std.specs.Prelude.{◌≡◌};
ghost use Rattle.tm_rules.specs.Prelude.{IsFew};
ghost use Rattle.tm_policy.specs.Counts.{counted};

use tm_types::policy::Policy;

/// How many domains of the policy are live, and how many entries these have. Its lists are short,
/// as those of each policy that is loaded or edited are. Takes no memory.
#[tactic(auto, using(crate::proofs::CountLaws::live_fewer))]
pub fn count_live(policy: &Policy) -> (u64, u64)
    requires { IsFew policy.now }
    ensures { result ≡ counted policy.now }
{
    let mut domains = 0;
    let mut entries = 0;
    for domain in policy.domains.as_slice() {
        if !domain.live {
            continue;
        }
        domains += 1;
        entries += domain.entries.len() as u64;
    }
    (domains, entries)
}
