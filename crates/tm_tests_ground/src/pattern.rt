//! Patterns read, printed and matched.
use std::alloc::{AllocError, AllocFailed, Global};
use tm_list::{Copied, NoMemory, Same};
use tm_pattern::{
    PatternFault, is_literal, literal, matches, matches_bytes, print_pattern, read_pattern,
};
use tm_word::{read_word, spelled_word};

/// Whether the pattern so written matches the name so spelled, by both calls; none where one of the
/// two can't be read.
fn answer(alloc: Global, pattern: &[u8], name: &[u8]) -> Option<bool> {
    let Ok(pattern) = read_pattern(alloc, pattern) else {
        return None;
    };
    let Ok(name) = read_word(alloc, name) else {
        return None;
    };
    let found = matches(&pattern, &name);
    if matches_bytes(&pattern, name.bytes()) == found {
        Some(found)
    } else {
        None
    }
}

#[test]
fn names_and_their_patterns(rt: HostRuntime) {
    let alloc = rt.alloc();
    for (pattern, name, want) in [
        ("/tmp/\\*", "/tmp/", false),
        ("/tmp/\\*", "/tmp/a", true),
        ("/tmp/\\*", "/tmp/a/b", false),
        ("/\\{\\*\\-proc\\}/x", "/x", false),
        ("/\\{\\*\\-proc\\}/x", "/a/b/x", true),
        ("/\\{\\*\\-proc\\}/x", "/a/proc/x", false),
        ("/d/\\@.c", "/d/\\040.c", true),
        ("/d/\\@.c", "/d/a.b.c", false),
        ("/d/\\?", "/d/\\040", true),
        ("/\\(\\*\\)/x", "/x", true),
        ("/\\(\\*\\)/x", "/a/x", true),
        ("/\\(\\*\\)/x", "/a/b/x", true),
        ("/\\(\\*\\)/x", "/x/", false),
        ("/\\(\\*\\-proc\\)/x", "/proc/x", false),
        ("/\\(a\\)/", "/", true),
        ("/\\(a\\)/", "/a/a/", true),
        ("/\\(a\\)/", "/a/b/", false),
        ("/a/\\$.\\+.\\X.\\x.\\A.\\a", "/a/12.3.aF.0.xy.z", true),
        ("/a/\\$.\\+.\\X.\\x.\\A.\\a", "/a/12.34.aF.0.xy.z", false),
        ("proc:/\\$/\\*\\-stat\\-m\\*", "proc:/1/status", true),
        ("proc:/\\$/\\*\\-stat\\-m\\*", "proc:/1/maps", false),
        ("proc:/\\$/\\*\\-stat\\-m\\*", "proc:/1/stat", false),
        // Answers of the kernel's own matcher.
        (
            "/\\?\\\\/\\{\\303\\251\\}/",
            "/-\\\\/\\303\\251/\\303\\251/\\303\\251/",
            true,
        ),
        ("/\\A/\\*/\\{\\x\\a\\}/", "/X/ca/eb/", true),
        ("/proc/\\*\\?/z91a\\x\\-ab\\-#", "/proc/.c./z91ae", true),
        ("/\\A/x.y./", "/aX/x.y.", false),
        ("\\+\\-\\*\\X", "4", false),
        ("]dead/\\{ff\\+\\@\\}/#\\-1/.", "]dead/ff09b/#/.", true),
        (
            "/=/proc/\\{ab\\-abc\\}/\\{abc\\*\\-\\@\\?\\}/",
            "/=/proc/abc/abc/",
            false,
        ),
        (
            "/\\*\\A#/\\{>\\?\\-ab\\}/123\\X\\X\\-\\$\\a\\-([",
            "/Yf#/>\\303/123dFbd",
            true,
        ),
        (
            "/\\+\\*/a/b/\\{\\*ff\\-\\303\\251\\-proc\\}/\\*\\$:",
            "/51\\040/a/b/ff/3:",
            true,
        ),
        (
            "/?\\-z9?\\-1/\\\\\\?\\a\\-\\?/}\\+/\\?}[",
            "//?/\\\\\\177Z/}1/.}[",
            false,
        ),
        ("proc:/self/\\*", "proc:/self/stat", true),
        ("\\*:/\\*", "proc:/1/stat", false),
    ] {
        assert_eq!(rt;
            answer(alloc, pattern.as_bytes(), name.as_bytes()),
            Some(want),
            "{pattern} {name}"
        );
    }
}

/// A slash, this often the middle, and then the end.
fn repeated(alloc: Global, middle: &[u8], times: usize, end: &[u8]) -> Result<Vec<u8>, NoMemory> {
    let mut text = Vec::new(alloc);
    text.push(b'/')?;
    for _ in 0..times {
        text.extend_from_slice(middle)?;
    }
    text.extend_from_slice(end)?;
    Ok(text)
}

#[test]
fn hostile_patterns_end_at_once(rt: HostRuntime) -> Result<(), NoMemory> {
    let alloc = rt.alloc();
    let stars = repeated(alloc, b"\\*a", 60, b"b")?;
    let eight = repeated(alloc, b"\\*a", 8, b"\\*b")?;
    let limited = repeated(alloc, b"\\Aa", 8, b"\\Ab\\A")?;
    for size in [250, 300, 4096, 60000] {
        let many = repeated(alloc, b"a", size, b"")?;
        assert_eq!(rt; answer(alloc, &stars, &many), Some(false));
        assert_eq!(rt; answer(alloc, &eight, &many), Some(false));
        assert_eq!(rt; answer(alloc, &limited, &many), Some(false));
        let ends = repeated(alloc, b"a", size, b"bc")?;
        assert_eq!(rt; answer(alloc, &limited, &ends), Some(true));
    }
    let longest = repeated(alloc, b"a", 1100000, b"1b")?;
    assert_eq!(rt; answer(alloc, b"/\\A1\\A", &longest), Some(true));
    assert_eq!(rt; answer(alloc, b"/\\A2\\A", &longest), Some(false));
    Ok(())
}

#[test]
fn long_patterns_end_at_once(rt: HostRuntime) -> Result<(), NoMemory> {
    let alloc = rt.alloc();
    let name = repeated(alloc, b"a", 199999, b"")?;
    assert_eq!(rt; name.len(), 200000);
    for (middle, times, end, want) in [
        ("a", 199999, "", true),
        ("a", 199994, "\\*aaa", true),
        ("\\*aaa", 39999, "aaaa", true),
        ("\\?\\a", 49999, "a\\A", true),
        ("a", 199998, "b", false),
        ("\\*aaa", 39999, "aaab", false),
        ("\\*aaa", 39999, "\\$aa", false),
        ("\\*aaa", 39999, "\\-\\A", false),
    ] {
        let pattern = repeated(alloc, middle.as_bytes(), times, end.as_bytes())?;
        assert_eq!(rt; pattern.len(), 200000, "{middle} {end}");
        assert_eq!(rt;
            answer(alloc, &pattern, &name),
            Some(want),
            "{middle} {end}"
        );
    }
    Ok(())
}

#[test]
fn hostile_folders_end_at_once(rt: HostRuntime) -> Result<(), NoMemory> {
    let alloc = rt.alloc();
    let folders = repeated(alloc, b"\\{\\*\\}/", 40, b"b")?;
    let three = repeated(alloc, b"\\{\\*\\}/", 3, b"x")?;
    for size in [199, 299, 19999] {
        let deep = repeated(alloc, b"a/", size, b"a")?;
        assert_eq!(rt; answer(alloc, &folders, &deep), Some(false));
        assert_eq!(rt; answer(alloc, &three, &deep), Some(false));
        let found = repeated(alloc, b"a/", size, b"x")?;
        assert_eq!(rt; answer(alloc, &three, &found), Some(true));
        let ends = repeated(alloc, b"a/", size, b"b")?;
        assert_eq!(rt; answer(alloc, &folders, &ends), Some(true));
        assert_eq!(rt;
            answer(alloc, b"/\\{\\*\\-b\\}/\\(c\\)/b", &ends),
            Some(true)
        );
    }
    let deepest = repeated(alloc, b"a/", 1100000, b"b")?;
    assert_eq!(rt; answer(alloc, b"/\\{a\\}/\\(c\\)/b", &deepest), Some(true));
    Ok(())
}

#[test]
fn texts_and_their_first_fault(rt: HostRuntime) {
    let alloc = rt.alloc();
    for (text, want) in [
        ("/a\\{b\\}/", PatternFault::LoneBrace(2)),
        ("/a\\-", PatternFault::EmptyPart(4)),
        ("/\\q", PatternFault::BadElement(1)),
        ("/a\\(b\\)/", PatternFault::LoneBrace(2)),
        ("/\\(a\\}/", PatternFault::LoneBrace(1)),
        ("/\\(\\)/x", PatternFault::EmptyPart(3)),
        ("/\\101", PatternFault::BadElement(1)),
        ("/a b", PatternFault::BadElement(2)),
        ("/\\{a\\}", PatternFault::LoneBrace(4)),
        ("\\-a", PatternFault::EmptyPart(0)),
    ] {
        match read_pattern(alloc, text.as_bytes()) {
            Ok(_) => assert!(rt; false, "{text}"),
            Err(fault) => assert_eq!(rt; fault, want, "{text}"),
        }
    }
    assert_eq!(rt; PatternFault::from(AllocError), PatternFault::NoMemory);
    assert_eq!(rt;
        PatternFault::from(AllocFailed { value: 1u8 }),
        PatternFault::NoMemory
    );
}

#[test]
fn patterns_are_printed_as_they_were_read(rt: HostRuntime) -> Result<(), PatternFault> {
    let alloc = rt.alloc();
    for text in [
        "",
        "/",
        "a",
        "/usr/bin/\\*\\-su\\-sudo",
        "/\\{\\*\\-proc\\-sys\\}/\\(\\A\\)/\\040\\\\\\377",
        "socket:[family=1:type=\\$:protocol=\\+]",
    ] {
        let pattern = read_pattern(alloc, text.as_bytes())?;
        let mut out = Vec::new(alloc);
        print_pattern(alloc, &pattern, &mut out)?;
        assert_eq!(rt; out.as_slice(), text.as_bytes(), "{text}");
    }
    Ok(())
}

#[test]
fn literals_of_names(rt: HostRuntime) -> Result<(), NoMemory> {
    let alloc = rt.alloc();
    for (name, want) in [
        ("/a\\040b/\\\\", true),
        ("", true),
        ("/", true),
        ("/a\\*", false),
    ] {
        if let Ok(pattern) = read_pattern(alloc, name.as_bytes()) {
            assert_eq!(rt; is_literal(&pattern), want, "{name}");
            if let Ok(Some(word)) = spelled_word(alloc, name.as_bytes()) {
                let made = literal(alloc, &word)?;
                assert!(rt; made.same(&pattern), "{name}");
                assert!(rt; matches(&made, &word), "{name}");
            }
        } else {
            assert!(rt; false, "{name}");
        }
    }
    Ok(())
}

#[test]
fn a_literal_lends_its_name(rt: HostRuntime) -> Result<(), PatternFault> {
    let alloc = rt.alloc();
    for (text, name) in [("/a\\040b/c", "/a b/c"), ("", ""), ("a\\\\b", "a\\b")] {
        let pattern = read_pattern(alloc, text.as_bytes())?;
        let own = pattern.copy(alloc)?;
        match own.name() {
            Ok(word) => assert_eq!(rt; word.bytes(), name.as_bytes(), "{text}"),
            Err(_) => assert!(rt; false, "{text}"),
        }
    }
    Ok(())
}

#[test]
fn another_pattern_lends_its_components(rt: HostRuntime) -> Result<(), PatternFault> {
    let alloc = rt.alloc();
    for (text, count) in [("/a/\\*", 3), ("/a\\-b/c/", 4), ("\\$", 1)] {
        let pattern = read_pattern(alloc, text.as_bytes())?;
        match pattern.name() {
            Ok(_) => assert!(rt; false, "{text}"),
            Err(components) => assert_eq!(rt; components.len(), count, "{text}"),
        }
    }
    Ok(())
}
