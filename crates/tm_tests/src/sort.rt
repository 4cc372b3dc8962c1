//! Audit files and sorter files, read, and records sorted.
use std::alloc::Global;
use tm_list::NoMemory;
use tm_sort::{
    Record, RecordFault, Route, Rule, RuleFault, accepts, dest_of, read_records, read_rules,
    routes_by, sorted, summary,
};
use tm_types::request::ScriptKind;

const TWO: &str =
    "profile=1 mode=enforcing granted=yes verdict=entry pid=7\n<kernel>\nfile read /a\n\nprofile=1 mode=enforcing granted=no verdict=no_entry pid=7\n<kernel>\nfile read /b\n\n";

/// The summary of sorting, and after it each part's number and text; the text of the fault where
/// one is.
fn sorted_text(alloc: Global, audit: &str, sorter: &str) -> Result<Vec<u8>, NoMemory> {
    let mut out = Vec::new(alloc);
    let Ok(records) = read_records(alloc, audit.as_bytes()) else {
        out.extend_from_slice(b"no audit")?;
        return Ok(out);
    };
    let Ok(rules) = read_rules(alloc, sorter.as_bytes()) else {
        out.extend_from_slice(b"no rules")?;
        return Ok(out);
    };
    let routes = routes_by(alloc, &rules, |rule: &Rule| {
        Route::new(rule, move |item: &Record| accepts(rule, item))
    })?;
    let parts = sorted(alloc, &rules, &routes, &records)?;
    let said = summary(alloc, records.len(), &parts)?;
    out.extend_from_slice(&said)?;
    for part in &parts {
        out.push(b'#')?;
        out.push(b'a'.wrapping_add(part.number))?;
        out.push(b'\n')?;
        out.extend_from_slice(part.text.bytes())?;
    }
    Ok(out)
}

#[test]
fn records_go_to_their_first_rule(rt: HostRuntime) -> Result<(), NoMemory> {
    for (audit, sorter, wanted) in [
        (
            TWO,
            "rule 1 : granted=no : any : any\n",
            "records 2\nsent 0 1\nsent 1 1\n#a\nprofile=1 mode=enforcing granted=yes verdict=entry pid=7\n<kernel>\nfile read /a\n\n#b\nprofile=1 mode=enforcing granted=no verdict=no_entry pid=7\n<kernel>\nfile read /b\n\n",
        ),
        (
            TWO,
            "rule 2 : any : <kernel> : file read any\nrule 1 : granted=no : any : any\n",
            "records 2\nsent 0 0\nsent 1 0\nsent 2 2\n#a\n#b\n#c\nprofile=1 mode=enforcing granted=yes verdict=entry pid=7\n<kernel>\nfile read /a\n\nprofile=1 mode=enforcing granted=no verdict=no_entry pid=7\n<kernel>\nfile read /b\n\n",
        ),
        ("", "", "records 0\nsent 0 0\n#a\n"),
        (
            "h\nd\nl\n\n",
            "rule 15 : any : any : any",
            "records 1\nsent 0 0\nsent 15 1\n#a\n#p\nh\nd\nl\n\n",
        ),
        (
            "h\nd\nl\n\n",
            "rule 3 : x : any : any\nrule 3 : any : d e : any\nrule 3 : any : d any : m",
            "records 1\nsent 0 1\nsent 3 0\n#a\nh\nd\nl\n\n#d\n",
        ),
        (
            "x h y\nd\nl\n\n",
            "rule 4 : y x : any : l\n",
            "records 1\nsent 0 0\nsent 4 1\n#a\n#e\nx h y\nd\nl\n\n",
        ),
        (
            "a\t\u{7f}b\n \n.\n\n",
            "rule 0 : \\A : any : .\n",
            "records 1\nsent 0 1\n#a\na\t\u{7f}b\n \n.\n\n",
        ),
        (
            TWO,
            "rule 1 : granted=\\* profile=1 : <kernel> any : file read /\\?\n",
            "records 2\nsent 0 0\nsent 1 2\n#a\n#b\nprofile=1 mode=enforcing granted=yes verdict=entry pid=7\n<kernel>\nfile read /a\n\nprofile=1 mode=enforcing granted=no verdict=no_entry pid=7\n<kernel>\nfile read /b\n\n",
        ),
    ] {
        let found = sorted_text(rt.alloc(), audit, sorter)?;
        assert_eq!(rt; found.as_slice(), wanted.as_bytes(), "at {sorter}");
    }
    Ok(())
}

#[test]
fn first_lines_that_no_audit_file_has(rt: HostRuntime) {
    for (text, line) in [
        ("\n", 1),
        ("h", 1),
        ("h\n", 2),
        ("h\n\n", 2),
        ("h\nd\n", 3),
        ("h\nd\nl\n", 4),
        ("h\nd\nl\nx\n", 4),
        ("h\nd\nl\n\n\n", 5),
        ("h\nd\nl\n\nh", 5),
        ("h\nd\nl\n\nh\nd\n", 7),
        ("h\nd\nl\n ", 4),
        ("h\nd\nl\n\nh\n\nl", 6),
    ] {
        match read_records(rt.alloc(), text.as_bytes()) {
            Ok(_) => assert!(rt; false, "read: {text}"),
            Err(RecordFault::Line(found)) => assert_eq!(rt; found, line, "at {text}"),
            Err(RecordFault::NoMemory) => assert!(rt; false, "no memory: {text}"),
        }
    }
}

#[test]
fn messages_of_audit_files(rt: HostRuntime) -> Result<(), NoMemory> {
    for (fault, wanted) in [
        (RecordFault::Line(7), "line 7"),
        (RecordFault::NoMemory, "out of memory"),
    ] {
        let said = format!(in rt.alloc(); "{fault}")?;
        assert_eq!(rt; said.as_str(), wanted);
    }
    Ok(())
}

fn kind_place(kind: ScriptKind) -> u8 {
    match kind {
        ScriptKind::Keyword => 0,
        ScriptKind::Number => 1,
        ScriptKind::Word => 2,
        ScriptKind::Domain => 3,
        ScriptKind::NoEditor => 4,
        ScriptKind::Twice => 5,
        ScriptKind::NoActivity => 6,
        ScriptKind::Arity => 7,
    }
}

#[test]
fn first_faults_of_rules(rt: HostRuntime) {
    for (text, line, kind) in [
        ("rule 16 : any : any : any\n", 1, 1),
        ("rules 1 : any : any : any", 1, 0),
        ("rule", 1, 7),
        ("rule 01 : any : any : any", 1, 1),
        ("rule -1", 1, 1),
        ("rule 1", 1, 7),
        ("rule 1 any : any : any", 1, 7),
        ("rule 1 :", 1, 7),
        ("rule 1 : : any : any", 1, 7),
        ("rule 1 : any", 1, 7),
        ("rule 1 : any : any", 1, 7),
        ("rule 1 : any : : any", 1, 7),
        ("rule 1 : any : any :", 1, 7),
        ("rule 1 : any : any : any : x", 1, 2),
        ("rule 1 : \\q : any : any", 1, 2),
        ("rule 1 : any \\q : any : any", 1, 2),
        ("rule 1 : any : \\q : any", 1, 2),
        ("rule 1 : any : any : \\q", 1, 2),
        ("\nrule 1 : any : any : any\n \nrule 2 : any\n", 4, 7),
    ] {
        match read_rules(rt.alloc(), text.as_bytes()) {
            Ok(_) => assert!(rt; false, "read: {text}"),
            Err(RuleFault::Line(found, why)) => {
                assert_eq!(rt; found, line, "at {text}");
                assert_eq!(rt; kind_place(why), kind, "at {text}");
            }
            Err(RuleFault::NoMemory) => assert!(rt; false, "no memory: {text}"),
        }
    }
}

#[test]
fn any_alone_is_a_list_without_patterns(rt: HostRuntime) {
    match read_rules(
        rt.alloc(),
        b"rule 1 : any : any : any\nrule 2 : any x : x any : x",
    ) {
        Ok(rules) => {
            assert_eq!(rt; rules.len(), 2);
            for (place, rule) in rules.iter().enumerate() {
                assert_eq!(rt; rule.header.any, place == 0);
                assert_eq!(rt; rule.header.patterns.len(), 2 * place);
                assert_eq!(rt; rule.domain.any, true);
                assert_eq!(rt; rule.domain.patterns.len(), place);
                assert_eq!(rt; rule.line.any, place == 0);
            }
        }
        Err(_) => assert!(rt; false),
    }
}

#[test]
fn a_record_without_a_rule_is_of_part_0(rt: HostRuntime) -> Result<(), NoMemory> {
    if let Ok(records) = read_records(rt.alloc(), b"h\nd\nl\n\n") {
        let rules: Vec<Rule> = Vec::new(rt.alloc());
        let routes = routes_by(rt.alloc(), &rules, |rule: &Rule| {
            Route::new(rule, move |item: &Record| accepts(rule, item))
        })?;
        for item in &records {
            assert_eq!(rt; dest_of(&routes, item), 0);
        }
    }
    Ok(())
}
