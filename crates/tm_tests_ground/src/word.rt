//! Words as they are read and written, and the small questions on texts.
use std::alloc::{AllocError, AllocFailed, Global};
use tm_list::{NoMemory, Same, Seq};
use tm_word::{
    Word, WordFault, Words, after, begins, begins_with, bytes_equal, cut_at, cut_word, has_byte,
    normal_words, octal_byte, place_of, read_word, spelled_word, spells, texts_equal, write_word,
};

/// The word that a text spells, and whether it is found and written by the other calls.
fn spelled(alloc: Global, text: &[u8]) -> Result<(Word, bool), WordFault> {
    let word = read_word(alloc, text)?;
    let mut out = Vec::new(alloc);
    write_word(alloc, &word, &mut out)?;
    let written = out.as_slice() == text && spells(text, word.bytes());
    let again = match spelled_word(alloc, text)? {
        Some(found) => found.same(&word),
        None => false,
    };
    Ok((word, written && again))
}

#[test]
fn words_and_their_spelling(rt: HostRuntime) -> Result<(), WordFault> {
    for (bytes, text) in [
        (&b"/ \\"[..], "/\\040\\\\"),
        (&b""[..], ""),
        (&b"a~!\x00\x7f\xff"[..], "a~!\\000\\177\\377"),
    ] {
        let (word, again) = spelled(rt.alloc(), text.as_bytes())?;
        assert_eq!(rt; (word.bytes(), again), (bytes, true), "{text}");
        assert!(rt; !spells(b"/\\040", bytes));
    }
    Ok(())
}

#[test]
fn texts_and_their_first_fault(rt: HostRuntime) -> Result<(), NoMemory> {
    for (text, want) in [
        ("\\101", WordFault::BadEscape(0)),
        ("a b", WordFault::BadByte(1)),
        ("ab\\", WordFault::BadEscape(2)),
        ("\\040\\40", WordFault::BadEscape(4)),
        ("/\\*", WordFault::BadEscape(1)),
    ] {
        let fault = read_word(rt.alloc(), text.as_bytes()).err();
        let none = spelled_word(rt.alloc(), text.as_bytes())?.is_none();
        assert_eq!(rt; (fault, none), (Some(want), true), "{text}");
    }
    let wants = [
        WordFault::from(AllocError),
        WordFault::from(AllocFailed { value: 1u8 }),
    ];
    assert_eq!(rt; wants, [WordFault::NoMemory; 2]);
    Ok(())
}

#[test]
fn words_of_a_line(rt: HostRuntime) -> Result<(), NoMemory> {
    let line = b" file  read\t/a\\040b \x7f";
    let words = normal_words(rt.alloc(), line)?;
    assert_eq!(rt; words.len(), 3);
    let mut lent = Words::of(line);
    for (word, want) in words.iter().zip(["file", "read", "/a\\040b"]) {
        assert_eq!(rt; word.bytes(), want.as_bytes());
        assert!(rt; lent.next() == Some(want.as_bytes()));
    }
    assert!(rt; lent.next().is_none());
    assert!(rt; cut_word(line) == Some((b"file", b" read\t/a\\040b \x7f")));
    assert!(rt; cut_word(b" \t").is_none());
    Ok(())
}

#[test]
fn bytes_of_three_octal_digits(rt: HostRuntime) {
    for (digits, want) in [
        (b"000", Some(0)),
        (b"040", Some(32)),
        (b"041", None),
        (b"176", None),
        (b"177", Some(127)),
        (b"377", Some(255)),
        (b"400", None),
        (b"080", None),
        (b"00a", None),
    ] {
        assert_eq!(rt; octal_byte(digits[0], digits[1], digits[2]), want);
    }
}

#[test]
fn questions_on_texts(rt: HostRuntime) {
    for (left, right, equal, front, rest) in [
        ("/a", "/a", true, true, Some("")),
        ("/a", "/ab", false, true, Some("b")),
        ("/a", "/b", false, false, None),
        ("/a", "/", false, false, None),
        ("", "/", false, true, Some("/")),
        ("", "", true, true, Some("")),
    ] {
        let (first, second) = (left.as_bytes(), right.as_bytes());
        let found = (
            bytes_equal(first, second),
            begins(first, second),
            after(first, second) == rest.map(|text| text.as_bytes()),
        );
        assert_eq!(rt; found, (equal, front, true), "{left} {right}");
    }
    for (text, first, place) in [
        ("a=b=c", false, Some(1)),
        ("=", true, Some(0)),
        ("abc", false, None),
        ("", false, None),
    ] {
        let bytes = text.as_bytes();
        let found = (
            begins_with(b'=', bytes),
            place_of(b'=', bytes),
            has_byte(b'=', bytes),
        );
        assert_eq!(rt; found, (first, place, place.is_some()), "{text}");
    }
    let cuts = [
        cut_at(b'=', b"a=b=c") == Some((b"a", b"b=c")),
        cut_at(b'=', b"=") == Some((b"", b"")),
        cut_at(b'=', b"abc").is_none(),
    ];
    assert_eq!(rt; cuts, [true; 3]);
}

#[test]
fn texts_are_equal_byte_by_byte(rt: HostRuntime) -> Result<(), NoMemory> {
    let text = Seq::from_bytes(rt.alloc(), b"/a")?;
    for (other, want) in [("/a", true), ("/b", false), ("/", false), ("/ab", false)] {
        let other = Seq::from_bytes(rt.alloc(), other.as_bytes())?;
        assert_eq!(rt; texts_equal(&text, &other), want);
    }
    Ok(())
}
