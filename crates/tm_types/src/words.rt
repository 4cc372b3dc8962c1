//! The words of closed types: one table a type, by which it is read and printed.
ghost use Rattle.std.specs.Prelude.{◌≡◌};
ghost use Rattle.tm_types.specs.Texts.{mode_text, policy_text, kind_text, edit_text, learn_text, trace_text, script_text};

use crate::entry::LineKind;
use crate::policy::Mode;
use crate::request::{ScriptKind, TraceKind};
use crate::step::{EditReply, FileKind, LearnReply};
use std::fmt;
use tm_number::word::Closed;

const MODES: [(&str, Mode); 4] = [
    ("disabled", Mode::Disabled),
    ("learning", Mode::Learning),
    ("permissive", Mode::Permissive),
    ("enforcing", Mode::Enforcing),
];

impl Mode {
    /// What a profile line calls the mode.
    pub fn text(self) -> &'static str
        ensures { result.now ≡ mode_text self }
    {
        MODES[self as usize].0
    }
}

impl fmt::Display for Mode {
    ghost use Rattle.std.specs.Prelude.{Some};
    ghost use Rattle.tm_types.specs.Texts.{mode_text};

    ghost output = { λ mode. Some (mode_text mode) };

    fn fmt<W: fmt::Write>(&self, f: &mut fmt::Formatter<W>) -> fmt::Result {
        f.write_str(self.text())
    }
}

impl Closed for Mode {
    ghost use Rattle.std.proofs.Common.{rules};
    ghost use Rattle.tm_types.specs.Texts.{mode_text, modes};

    ghost all = { modes };

    ghost text = { mode_text };

    ghost again = { Prim.search rules };

    fn table() -> &'static [(&'static str, Mode)] {
        &MODES
    }
}

const FILES: [(&str, FileKind); 4] = [
    ("profile", FileKind::Profile),
    ("exception_policy", FileKind::Exception),
    ("domain_policy", FileKind::Domain),
    ("manager", FileKind::Manager),
];

impl FileKind {
    /// The name of the policy file.
    pub fn text(self) -> &'static str
        ensures { result.now ≡ policy_text self }
    {
        FILES[self as usize].0
    }
}

impl fmt::Display for FileKind {
    ghost use Rattle.std.specs.Prelude.{Some};
    ghost use Rattle.tm_types.specs.Texts.{policy_text};

    ghost output = { λ file. Some (policy_text file) };

    fn fmt<W: fmt::Write>(&self, f: &mut fmt::Formatter<W>) -> fmt::Result {
        f.write_str(self.text())
    }
}

impl Closed for FileKind {
    ghost use Rattle.std.proofs.Common.{rules};
    ghost use Rattle.tm_types.specs.Texts.{policy_text, policies};

    ghost all = { policies };

    ghost text = { policy_text };

    ghost again = { Prim.search rules };

    fn table() -> &'static [(&'static str, FileKind)] {
        &FILES
    }
}

const KINDS: [(&str, LineKind); 10] = [
    ("keyword", LineKind::Keyword),
    ("arity", LineKind::Arity),
    ("name", LineKind::Name),
    ("number", LineKind::Number),
    ("address", LineKind::Address),
    ("domain", LineKind::Domain),
    ("condition", LineKind::Condition),
    ("profile", LineKind::Profile),
    ("version", LineKind::Version),
    ("kernel_domain", LineKind::KernelDomain),
];

impl LineKind {
    /// What is wrong with the line, in a word.
    pub fn text(self) -> &'static str
        ensures { result.now ≡ kind_text self }
    {
        KINDS[self as usize].0
    }
}

impl fmt::Display for LineKind {
    ghost use Rattle.std.specs.Prelude.{Some};
    ghost use Rattle.tm_types.specs.Texts.{kind_text};

    ghost output = { λ kind. Some (kind_text kind) };

    fn fmt<W: fmt::Write>(&self, f: &mut fmt::Formatter<W>) -> fmt::Result {
        f.write_str(self.text())
    }
}

impl Closed for LineKind {
    ghost use Rattle.std.proofs.Common.{rules};
    ghost use Rattle.tm_types.specs.Texts.{kind_text, kinds};

    ghost all = { kinds };

    ghost text = { kind_text };

    ghost again = { Prim.search rules };

    fn table() -> &'static [(&'static str, LineKind)] {
        &KINDS
    }
}

impl EditReply {
    /// What became of the line, in a word; a bad one has its kind after `bad:`.
    pub fn text(self) -> &'static str
        ensures { result.now ≡ edit_text self }
    {
        match self {
            EditReply::Done => "done",
            EditReply::NotManager => "not_manager",
            EditReply::BadLine(LineKind::Keyword) => "bad:keyword",
            EditReply::BadLine(LineKind::Arity) => "bad:arity",
            EditReply::BadLine(LineKind::Name) => "bad:name",
            EditReply::BadLine(LineKind::Number) => "bad:number",
            EditReply::BadLine(LineKind::Address) => "bad:address",
            EditReply::BadLine(LineKind::Domain) => "bad:domain",
            EditReply::BadLine(LineKind::Condition) => "bad:condition",
            EditReply::BadLine(LineKind::Profile) => "bad:profile",
            EditReply::BadLine(LineKind::Version) => "bad:version",
            EditReply::BadLine(LineKind::KernelDomain) => "bad:kernel_domain",
            EditReply::NoDomain => "no_domain",
            EditReply::NoProfile => "no_profile",
            EditReply::NoSuchLine => "no_line",
        }
    }
}

impl fmt::Display for EditReply {
    ghost use Rattle.std.specs.Prelude.{Some};
    ghost use Rattle.tm_types.specs.Texts.{edit_text};

    ghost output = { λ reply. Some (edit_text reply) };

    fn fmt<W: fmt::Write>(&self, f: &mut fmt::Formatter<W>) -> fmt::Result {
        f.write_str(self.text())
    }
}

const LEARNED: [(&str, LearnReply); 4] = [
    ("added", LearnReply::Added),
    ("there", LearnReply::There),
    ("quota", LearnReply::Quota),
    ("mode", LearnReply::Mode),
];

impl LearnReply {
    /// What became of the learned line, in a word.
    pub fn text(self) -> &'static str
        ensures { result.now ≡ learn_text self }
    {
        LEARNED[self as usize].0
    }
}

impl fmt::Display for LearnReply {
    ghost use Rattle.std.specs.Prelude.{Some};
    ghost use Rattle.tm_types.specs.Texts.{learn_text};

    ghost output = { λ reply. Some (learn_text reply) };

    fn fmt<W: fmt::Write>(&self, f: &mut fmt::Formatter<W>) -> fmt::Result {
        f.write_str(self.text())
    }
}

impl Closed for LearnReply {
    ghost use Rattle.std.proofs.Common.{rules};
    ghost use Rattle.tm_types.specs.Texts.{learn_text, learn_replies};

    ghost all = { learn_replies };

    ghost text = { learn_text };

    ghost again = { Prim.search rules };

    fn table() -> &'static [(&'static str, LearnReply)] {
        &LEARNED
    }
}

impl TraceKind {
    /// What is wrong with the line of the trace, in a word.
    pub fn text(self) -> &'static str
        ensures { result.now ≡ trace_text self }
    {
        match self {
            TraceKind::Keyword => "Keyword",
            TraceKind::NoTree => "NoTree",
            TraceKind::Number => "Number",
            TraceKind::KnownProcess => "KnownProcess",
            TraceKind::NoProcess => "NoProcess",
            TraceKind::NoDomain => "NoDomain",
            TraceKind::Request => "Request",
            TraceKind::Attribute => "Attribute",
            TraceKind::Arity => "Arity",
        }
    }
}

impl fmt::Display for TraceKind {
    ghost use Rattle.std.specs.Prelude.{Some};
    ghost use Rattle.tm_types.specs.Texts.{trace_text};

    ghost output = { λ kind. Some (trace_text kind) };

    fn fmt<W: fmt::Write>(&self, f: &mut fmt::Formatter<W>) -> fmt::Result {
        f.write_str(self.text())
    }
}

impl ScriptKind {
    /// What is wrong with the line of the script, in a word.
    pub fn text(self) -> &'static str
        ensures { result.now ≡ script_text self }
    {
        match self {
            ScriptKind::Keyword => "Keyword",
            ScriptKind::Number => "Number",
            ScriptKind::Word => "Word",
            ScriptKind::Domain => "Domain",
            ScriptKind::NoEditor => "NoEditor",
            ScriptKind::Twice => "Twice",
            ScriptKind::NoActivity => "NoActivity",
            ScriptKind::Arity => "Arity",
        }
    }
}

impl fmt::Display for ScriptKind {
    ghost use Rattle.std.specs.Prelude.{Some};
    ghost use Rattle.tm_types.specs.Texts.{script_text};

    ghost output = { λ kind. Some (script_text kind) };

    fn fmt<W: fmt::Write>(&self, f: &mut fmt::Formatter<W>) -> fmt::Result {
        f.write_str(self.text())
    }
}
