//! Laws of what is learned, and of what a switched policy keeps, each on a function whose only
//! clauses they are.
ghost use Rattle.std.specs.Prelude.{◌≡◌, ℕ, Bool, Option, option_map};
ghost use Rattle.tm_word.specs.Prelude.{Text};
ghost use Rattle.tm_rules.specs.Prelude.{DomainName, Granting, can_enter, candidate, decision, entries_of, first, is_plain, line_of, live_domain, mode_of, namespace_named, namespace_of, profile_of};
ghost use Rattle.tm_rules.specs.Types.{Domain, Function, Policy, Proc, Profile, Request};
ghost use Rattle.tm_legal.specs.Prelude.{Execute, IsOpened, LearnedLinesGrant, execute_found, switched, switched_mode, switched_profile};

/// A switched policy keeps all but its namespaces, so each domain with its entries, and finds live
/// domains at the same numbers.
pub fn switched_domains()
    ensures policies { (policy : Policy) →
        switched policy ≡ record policy { namespaces = (switched policy).namespaces } }
    ensures domains { (policy : Policy) → (switched policy).domains ≡ policy.domains }
    ensures live { (policy : Policy) (name : DomainName) →
        live_domain (switched policy) name ≡ live_domain policy name }
{}

/// Each namespace keeps all but its profiles: its groups, aggregators, controls and ACL groups. So
/// a domain has the same entries, and the first that grants a request is the same.
pub fn switched_namespaces()
    ensures namespaces { (policy : Policy) (name : Text) →
        namespace_named (switched policy) name
        ≡ record (namespace_named policy name) { profiles = (namespace_named (switched policy) name).profiles } }
    ensures entries { (policy : Policy) (domain : Domain) →
        entries_of (namespace_of (switched policy) domain) domain ≡ entries_of (namespace_of policy domain) domain }
    ensures firsts { (policy : Policy) (domain : Domain) (process : Proc) (request : Request) →
        first (namespace_of (switched policy) domain) domain process request
        ≡ first (namespace_of policy domain) domain process request }
{}

/// A domain's profile is switched.
pub fn switched_profiles()
    ensures { (policy : Policy) (domain : Domain) →
        profile_of (switched policy) domain ≡ option_map switched_profile (profile_of policy domain) }
{}

/// A switched profile has each function's mode switched.
pub fn switched_modes()
    ensures { (profile : Profile) (function : Function) →
        mode_of (switched_profile profile) function ≡ switched_mode (mode_of profile function) }
{}

/// Where clean runs grow, a line that was learned in one grants its own request at each later
/// version, and in the switched final policy.
pub fn learned_lines_grant()
    ensures { LearnedLinesGrant }
{}

/// A request leads where it led: the line that is learned for it, its candidate, what decides and
/// what can be entered are the same.
pub fn switched_ways()
    ensures lines { (policy : Policy) (domain : Domain) (request : Request) →
        line_of (namespace_of (switched policy) domain) request ≡ line_of (namespace_of policy domain) request }
    ensures candidates { (policy : Policy) (domain : Domain) (found : Option Granting) (request : Request) →
        candidate (namespace_of (switched policy) domain) found request
        ≡ candidate (namespace_of policy domain) found request }
    ensures decisions { (policy : Policy) (domain : Domain) (name : DomainName)
        (found : Option Granting) (request : Request) →
        decision (namespace_of (switched policy) domain) name found request
        ≡ decision (namespace_of policy domain) name found request }
    ensures enters { (is_path : Text → Bool) (policy : Policy) (domain name : DomainName) →
        can_enter is_path (switched policy) domain name ≡ can_enter is_path policy domain name }
    ensures executes { (policy : Policy) (d : ℕ) (x : Execute) →
        execute_found (switched policy) d x ≡ execute_found policy d x }
{}

/// A switched policy is plain where the policy is.
pub fn switched_stays_plain()
    ensures { (policy : Policy) → is_plain (switched policy) ≡ is_plain policy }
{}

/// A switched policy is opened where the policy is.
pub fn switched_stays_opened()
    ensures { (policy : Policy) → IsOpened policy → IsOpened (switched policy) }
{}
