//! The grammar of policy lines, entries and requests as one constant, and what the definitions ask
//! of it.
//! Stands on tm_policy_line, tm_entry and tm_trace, whose readers and printers it names; no code
//! but for functions without a body, on which the laws stand.
//! Of its own, so that tm_legal's laws are of every grammar; tm_rep, tm_take and tm_audit cite it.
//! Promises that the constant is a grammar as the laws of policies and runs ask for one, so that
//! they hold of the lines that files really have.
#![tactic(auto)]

ghost use Rattle.std.specs.Prelude.{◌≡◌};
ghost use Rattle.tm_word.specs.Prelude.{joined};
ghost use Rattle.tm_rules.specs.Types.{Entry, Request};
ghost use Rattle.tm_rules.specs.Prelude.{IsGrammar};
ghost use Rattle.tm_policy_line.specs.Entries.{entry_words};
ghost use Rattle.tm_trace.specs.Printing.{request_text, attributes_text};
ghost use Rattle.tm_grammar.specs.Tomoyo.{tomoyo_grammar};

/// What is learned can be written, an aggregator leads to a path, the line of an ACL group is read
/// whole, a name that is chosen is a right one, a quiet line is a quiet rule, and no line deletes
/// `<kernel>`.
pub fn tomoyo_grammar_is_one()
    ensures { IsGrammar tomoyo_grammar }
{}

/// Entries, requests and their attributes are printed as policies and traces have them: a request
/// is the line of its one permission, its attributes have a space in front of each.
pub fn tomoyo_grammar_prints()
    ensures entry { (entry : Entry) → tomoyo_grammar.print_entry entry ≡ joined (entry_words entry) }
    ensures request { (request : Request) → tomoyo_grammar.print_request request ≡ request_text request }
    ensures attributes { (request : Request) → tomoyo_grammar.print_attributes request ≡ attributes_text request }
{}

pub use tm_policy_line as policy_line;
pub use tm_policy_line::{cond, entry, except, files as file, net};
pub use tm_trace as trace;
