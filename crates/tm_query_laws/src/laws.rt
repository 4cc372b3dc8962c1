//! Laws of the lists of steps of machines, each on a function whose clauses are all that it has.
ghost use Rattle.std.specs.Prelude.{◌≡◌, ◌<◌, ◌↔◌, ℕ, List, Some, IsSome};
ghost use Rattle.tm_rules.specs.Types.{Answered, Made, Start};
ghost use Rattle.tm_rules.specs.Prelude.{Grammar, answer_of, numbered};
ghost use Rattle.tm_query_laws.specs.Given.{ExactlyOne, queries_made, queries_at, IsAskedAt};
ghost use Rattle.tm_query_laws.specs.Given.{IsGivenAt, IsAsk, HasCause, StandsAfterAsk, IsAnswer, IsDetach};

/// Whatever steps a machine makes, and whether or not they fit: each query that stands at their end
/// came to stand by exactly one of them, and it did so by an Ask that was replied its serial.
pub fn queries_are_asked()
    ensures once { (g : Grammar) (start : Start) (list : List Made) (serial : ℕ) →
        IsSome (numbered (queries_made g start list).all serial) →
        ExactlyOne (IsAskedAt g start list serial) }
    ensures ask { (g : Grammar) (start : Start) (list : List Made) (serial place : ℕ) →
        IsAskedAt g start list serial place ↔ IsAsk g start list serial place }
{}

/// Whatever steps a machine makes, and whether or not they fit: a query that has an answer at their
/// end got it by exactly one of them, after its Ask, and has it from then on. That step is the
/// cause of the answer: the supervisor's answer to this query, with a code for it, or, where the
/// query is closed, that the supervisor leaves.
pub fn answers_are_given()
    ensures once { (g : Grammar) (start : Start) (list : List Made) (serial : ℕ) (given : Answered) →
        answer_of (queries_made g start list) serial ≡ Some given →
        ExactlyOne (IsGivenAt g start list serial given) }
    ensures cause { (g : Grammar) (start : Start) (list : List Made) (serial : ℕ) (given : Answered) →
        (place : ℕ) → IsGivenAt g start list serial given place → HasCause list serial given place }
    ensures asked { (g : Grammar) (start : Start) (list : List Made) (serial : ℕ) (given : Answered) →
        (place : ℕ) → IsGivenAt g start list serial given place →
        (asked : ℕ) × (asked < place) × IsAskedAt g start list serial asked }
    ensures lasts { (g : Grammar) (start : Start) (list : List Made) (serial : ℕ) (given : Answered) →
        (place version : ℕ) → IsGivenAt g start list serial given place → place < version →
        answer_of (queries_at g start list version) serial ≡ Some given }
    ensures detached { (g : Grammar) (start : Start) (list : List Made) (serial : ℕ) →
        answer_of (queries_made g start list) serial ≡ Some Answered.Detached →
        StandsAfterAsk g start list serial IsDetach }
    ensures answered { (g : Grammar) (start : Start) (list : List Made) (serial : ℕ) (given : Answered) →
        answer_of (queries_made g start list) serial ≡ Some given → ¬ (given ≡ Answered.Detached) →
        StandsAfterAsk g start list serial (IsAnswer serial given) }
{}
