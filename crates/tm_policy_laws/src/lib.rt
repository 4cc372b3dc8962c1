//! What policy lines can leave of a policy, and that what is printed of it is loaded again.
//! Stands on tm_policy_line, tm_text, tm_legal and tm_grammar; no code but for functions without a
//! body, on which the laws stand.
//! Of its own, so that tm_text and tm_legal, which it joins, stay apart; nothing stands on it.
//! Promises that every policy that was loaded stays one that lines can leave, and that its printed
//! files load as its live part.
#![tactic(auto)]

ghost use Rattle.std.specs.Prelude.{◌≡◌, ℕ, true, List, Ok};
ghost use Rattle.std.specs.List.{AllByRecursion};
ghost use Rattle.std.specs.Option.{IfSome};
ghost use Rattle.tm_word.specs.Prelude.{Pattern, Text, Word};
ghost use Rattle.tm_rules.specs.Types.{Domain, Entry, FileKind, Namespace, Policy, PolicyFiles, PolicyLine, Step};
ghost use Rattle.tm_rules.specs.Prelude.{Cursor, DomainName, LoadsBack, apply_line, apply_read, fail, is_domain_name, is_path_word, learn, live_part, load, make, new_policy};
ghost use Rattle.tm_domain.specs.Names.{is_path};
ghost use Rattle.tm_entry.specs.Entries.{is_entry};
ghost use Rattle.tm_policy_line.specs.Written.{IsWrittenLine};
ghost use Rattle.tm_legal.specs.Prelude.{IsOpened, State, after, apply};
ghost use Rattle.tm_grammar.specs.Tomoyo.{tomoyo_grammar};
ghost use Rattle.tm_policy_laws.specs.Policies.{IsWritten};
ghost use Rattle.tm_policy_laws.specs.PolicyText.{policy_text};

/// A policy that lines can leave stays one: whatever line that some text writes is done, whatever
/// entry that a line can write is learned, whatever domain of a right name is made, where a
/// transition fails, and where its dead domains go. A new policy is one. In such a policy every
/// domain has a right name, and every aggregator leads to a path.
pub fn written_changes()
    ensures new { IsWritten new_policy }
    ensures line { (policy : Policy) (cursor : Cursor) (line : PolicyLine) → IsWritten policy → IsWrittenLine line
        → IsWritten (apply_read policy cursor line).policy }
    ensures learn { (policy : Policy) (domain : ℕ) (entry : Entry) → IsWritten policy → is_entry entry ≡ true
        → IfSome (learn policy domain entry) (λ done. IsWritten done.0) }
    ensures make { (policy : Policy) (domain : ℕ) (name : DomainName) → IsWritten policy
        → is_domain_name is_path name ≡ true → IfSome (make policy domain name) (λ done. IsWritten done.0) }
    ensures fail { (policy : Policy) (domain : ℕ) → IsWritten policy
        → IfSome (fail policy domain) (λ done. IsWritten done.0) }
    ensures live { (policy : Policy) → IsWritten policy → IsWritten (live_part policy) }
    ensures names { (policy : Policy) → IsWritten policy
        → AllByRecursion (λ (domain : Domain). is_domain_name is_path domain.name ≡ true) policy.domains }
    ensures aggregators { (policy : Policy) → IsWritten policy
        → AllByRecursion (λ (ns : Namespace). AllByRecursion (λ (pair : Pattern × Word).
        is_path_word pair.1 ≡ true) ns.aggregators) policy.namespaces }
{}

/// Whatever four files load is a policy that lines can leave, and so is every later version of it:
/// whatever a line of a policy file or of an editor says, whatever step the machine makes, and
/// however many steps.
pub fn written_policies()
    ensures text { (policy : Policy) (file : FileKind) (cursor : Cursor) (text : Text) → IsWritten policy
        → IsWritten (apply_line tomoyo_grammar policy file cursor text).policy }
    ensures stepped { (state : State) (step : Step) → IsWritten state.policy
        → IsWritten (apply tomoyo_grammar state step).state.policy }
    ensures after { (state : State) (steps : List Step) → IsWritten state.policy
        → IsWritten (after tomoyo_grammar state steps).policy }
    ensures loaded { (files : PolicyFiles) (policy : Policy) → load tomoyo_grammar files ≡ Ok policy
        → IsWritten policy }
{}

/// The printed profiles, exceptions, domains and managers of an opened policy that lines can leave
/// are loaded without a fault, and give its live part: the same live domains in their order by new
/// numbers, the same namespaces by their names, the same managers. Every policy that was loaded is
/// opened and one that lines can leave, and every step keeps it so. Therefore whatever was loaded
/// is printed, at whatever later version, to files that load as its live part.
pub fn printed_policies()
    ensures again { (policy : Policy) → IsOpened policy → IsWritten policy
        → LoadsBack tomoyo_grammar policy_text policy }
    ensures loaded { (files : PolicyFiles) (policy : Policy) → load tomoyo_grammar files ≡ Ok policy
        → IsOpened policy × IsWritten policy }
    ensures stepped { (state : State) (step : Step) → IsOpened state.policy → IsWritten state.policy
        → IsOpened (apply tomoyo_grammar state step).state.policy
        × IsWritten (apply tomoyo_grammar state step).state.policy }
    ensures later { (files : PolicyFiles) (state : State) (steps : List Step)
        → load tomoyo_grammar files ≡ Ok state.policy
        → LoadsBack tomoyo_grammar policy_text (after tomoyo_grammar state steps).policy }
{}
