//! The words of closed types and the messages of faults.
use std::alloc::{AllocError, AllocFailed, Global};
use std::fmt::Display;
use tm_addr::AddrFault;
use tm_list::NoMemory;
use tm_number::NumberFault;
use tm_pattern::PatternFault;
use tm_types::entry::LineKind;
use tm_types::policy::Mode;
use tm_types::request::{ScriptFault, ScriptKind, TraceFault, TraceKind};
use tm_types::step::{EditReply, FileKind, LearnReply, LineFault, LoadFault, RunFault};
use tm_word::WordFault;

/// The place of the first value that isn't printed as the text beside it.
fn misprinted<T: Display>(alloc: Global, rows: &[(T, &str)]) -> Result<Option<usize>, NoMemory> {
    for (place, (value, text)) in rows.iter().enumerate() {
        let printed = format!(in alloc; "{value}")?;
        if printed.as_str() != *text {
            return Ok(Some(place));
        }
    }
    Ok(None)
}

#[test]
fn words_of_modes_and_files(rt: HostRuntime) -> Result<(), NoMemory> {
    let modes = [
        (Mode::Disabled, "disabled"),
        (Mode::Learning, "learning"),
        (Mode::Permissive, "permissive"),
        (Mode::Enforcing, "enforcing"),
    ];
    let files = [
        (FileKind::Profile, "profile"),
        (FileKind::Exception, "exception_policy"),
        (FileKind::Domain, "domain_policy"),
        (FileKind::Manager, "manager"),
    ];
    let replies = [
        (LearnReply::Added, "added"),
        (LearnReply::There, "there"),
        (LearnReply::Quota, "quota"),
        (LearnReply::Mode, "mode"),
    ];
    let wrong = [
        misprinted(rt.alloc(), &modes)?,
        misprinted(rt.alloc(), &files)?,
        misprinted(rt.alloc(), &replies)?,
    ];
    assert_eq!(rt; wrong, [None; 3]);
    for place in 0..4 {
        let texts = [
            modes[place].0.text(),
            files[place].0.text(),
            replies[place].0.text(),
        ];
        assert_eq!(rt; texts, [modes[place].1, files[place].1, replies[place].1]);
    }
    Ok(())
}

#[test]
fn words_of_policy_lines(rt: HostRuntime) -> Result<(), NoMemory> {
    let kinds = [
        (LineKind::Keyword, "keyword"),
        (LineKind::Arity, "arity"),
        (LineKind::Name, "name"),
        (LineKind::Number, "number"),
        (LineKind::Address, "address"),
        (LineKind::Domain, "domain"),
        (LineKind::Condition, "condition"),
        (LineKind::Profile, "profile"),
        (LineKind::Version, "version"),
        (LineKind::KernelDomain, "kernel_domain"),
    ];
    let replies = [
        (EditReply::Done, "done"),
        (EditReply::NotManager, "not_manager"),
        (EditReply::BadLine(LineKind::Keyword), "bad:keyword"),
        (EditReply::BadLine(LineKind::Arity), "bad:arity"),
        (EditReply::BadLine(LineKind::Name), "bad:name"),
        (EditReply::BadLine(LineKind::Number), "bad:number"),
        (EditReply::BadLine(LineKind::Address), "bad:address"),
        (EditReply::BadLine(LineKind::Domain), "bad:domain"),
        (EditReply::BadLine(LineKind::Condition), "bad:condition"),
        (EditReply::BadLine(LineKind::Profile), "bad:profile"),
        (EditReply::BadLine(LineKind::Version), "bad:version"),
        (
            EditReply::BadLine(LineKind::KernelDomain),
            "bad:kernel_domain",
        ),
        (EditReply::NoDomain, "no_domain"),
        (EditReply::NoProfile, "no_profile"),
        (EditReply::NoSuchLine, "no_line"),
    ];
    let wrong = (
        misprinted(rt.alloc(), &kinds)?,
        misprinted(rt.alloc(), &replies)?,
    );
    assert_eq!(rt; wrong, (None, None));
    for (kind, text) in kinds {
        assert_eq!(rt; kind.text(), text);
    }
    for (reply, text) in replies {
        assert_eq!(rt; reply.text(), text);
    }
    Ok(())
}

#[test]
fn words_of_traces_and_scripts(rt: HostRuntime) -> Result<(), NoMemory> {
    let traces = [
        (TraceKind::Keyword, "Keyword"),
        (TraceKind::NoTree, "NoTree"),
        (TraceKind::Number, "Number"),
        (TraceKind::KnownProcess, "KnownProcess"),
        (TraceKind::NoProcess, "NoProcess"),
        (TraceKind::NoDomain, "NoDomain"),
        (TraceKind::Request, "Request"),
        (TraceKind::Attribute, "Attribute"),
        (TraceKind::Arity, "Arity"),
    ];
    let scripts = [
        (ScriptKind::Keyword, "Keyword"),
        (ScriptKind::Number, "Number"),
        (ScriptKind::Word, "Word"),
        (ScriptKind::Domain, "Domain"),
        (ScriptKind::NoEditor, "NoEditor"),
        (ScriptKind::Twice, "Twice"),
        (ScriptKind::NoActivity, "NoActivity"),
        (ScriptKind::Arity, "Arity"),
    ];
    let wrong = (
        misprinted(rt.alloc(), &traces)?,
        misprinted(rt.alloc(), &scripts)?,
    );
    assert_eq!(rt; wrong, (None, None));
    for (kind, text) in traces {
        assert_eq!(rt; kind.text(), text);
    }
    for (kind, text) in scripts {
        assert_eq!(rt; kind.text(), text);
    }
    Ok(())
}

#[test]
fn messages_of_small_texts(rt: HostRuntime) -> Result<(), NoMemory> {
    let words = [
        (
            WordFault::BadByte(3),
            "byte 3 is none that a word is spelled with",
        ),
        (
            WordFault::BadEscape(0),
            "the backslash at byte 0 begins no spelling of a byte",
        ),
        (WordFault::NoMemory, "out of memory"),
    ];
    let numbers = [
        (NumberFault::NotANumber, "not a number"),
        (NumberFault::TooBig, "a number of 2^64 or more"),
        (NumberFault::Backwards, "a range that ends before it begins"),
    ];
    let addresses = [
        (AddrFault::NotAnAddress, "not an address"),
        (AddrFault::Mixed, "a range of addresses of two families"),
        (
            AddrFault::Backwards,
            "a range of addresses that ends before it begins",
        ),
    ];
    let patterns = [
        (
            PatternFault::BadElement(1),
            "no element of a pattern begins at byte 1",
        ),
        (
            PatternFault::LoneBrace(2),
            "the mark of a repeated component at byte 2 stands alone or beside something",
        ),
        (
            PatternFault::EmptyPart(4),
            "a part that ends at byte 4 is empty",
        ),
        (PatternFault::NoMemory, "out of memory"),
    ];
    let wrong = [
        misprinted(rt.alloc(), &words)?,
        misprinted(rt.alloc(), &numbers)?,
        misprinted(rt.alloc(), &addresses)?,
        misprinted(rt.alloc(), &patterns)?,
    ];
    assert_eq!(rt; wrong, [None; 4]);
    Ok(())
}

#[test]
fn messages_of_lines(rt: HostRuntime) -> Result<(), NoMemory> {
    let bad = EditReply::BadLine(LineKind::Arity);
    let lines = [
        (LineFault::Kind(LineKind::Number), "number"),
        (LineFault::from(AllocError), "out of memory"),
        (LineFault::from(AllocFailed { value: 1u8 }), "out of memory"),
    ];
    let traces = [
        (TraceFault::Line(7, TraceKind::NoTree), "line 7: NoTree"),
        (TraceFault::NoMemory, "out of memory"),
    ];
    let scripts = [
        (ScriptFault::Line(8, ScriptKind::Twice), "line 8: Twice"),
        (ScriptFault::NoMemory, "out of memory"),
    ];
    let runs = [
        (RunFault::BadLine(9), "line 9"),
        (RunFault::NoMemory, "out of memory"),
    ];
    let loads = [
        (
            LoadFault::Line(FileKind::Domain, 3, bad),
            "domain_policy line 3: bad:arity",
        ),
        (LoadFault::UndefinedProfile(2), "domain 2 has no profile"),
        (LoadFault::NoMemory, "out of memory"),
    ];
    let wrong = [
        misprinted(rt.alloc(), &lines)?,
        misprinted(rt.alloc(), &traces)?,
        misprinted(rt.alloc(), &scripts)?,
        misprinted(rt.alloc(), &runs)?,
        misprinted(rt.alloc(), &loads)?,
    ];
    assert_eq!(rt; wrong, [None; 5]);
    Ok(())
}
