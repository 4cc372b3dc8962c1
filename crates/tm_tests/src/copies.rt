//! Copies that no call of the program makes.
use std::alloc::Global;
use std::test::Fail;
use tm_list::{Copied, NoMemory, Seq};
use tm_script::{book_answer, read_answers, read_edits};
use tm_types::step::{Answer, Book, Made, Maker, Query, Step};

#[test]
fn an_editor_is_copied_with_its_lines(rt: HostRuntime) -> Result<(), Fail> {
    let Ok(editors) = read_edits(
        rt.alloc(),
        b"editor 0 7 /usr\\040x <kernel> /a\nmanager /b\n",
    ) else {
        assert!(rt; false, "the script is not read");
        return Ok(());
    };
    assert_eq!(rt; editors.len(), 1);
    for read in &editors {
        let editor = read.copy(rt.alloc())?;
        assert_eq!(rt; (editor.uid, editor.euid), (0, 7));
        assert_eq!(rt; editor.exe.bytes(), b"/usr x".as_slice());
        assert_eq!(rt; editor.domain.bytes(), b"<kernel> /a".as_slice());
        assert_eq!(rt; editor.lines.len(), 1);
    }
    Ok(())
}

/// A query for a read of this file, copied.
fn query(alloc: Global, retry: u32, line: &str) -> Result<Query, NoMemory> {
    let asked = Query {
        serial: 1,
        retry,
        domain: Seq::from_bytes(alloc, b"<kernel> /x")?,
        line: Seq::from_bytes(alloc, line.as_bytes())?,
    };
    asked.copy(alloc)
}

#[test]
fn a_book_is_copied_with_its_rules(rt: HostRuntime) -> Result<(), Fail> {
    let text = b"rule retry 1 yes : <kernel> any : file read /a/\\*\n";
    let Ok(read) = read_answers(rt.alloc(), text) else {
        assert!(rt; false, "the book is not read");
        return Ok(());
    };
    let book = Book {
        rules: read.rules.copy(rt.alloc())?,
        stop: read.stop,
    };
    for (retry, line, wanted) in [
        (0, "file read /a/b", Answer::Retry),
        (1, "file read /a/b", Answer::Yes),
        (2, "file read /a/b", Answer::Yes),
        (0, "file read /a/b/", Answer::No),
        (0, "file", Answer::No),
    ] {
        let asked = query(rt.alloc(), retry, line)?;
        assert!(rt; book_answer(&book, &asked) == wanted, "at {line}");
    }
    Ok(())
}

#[test]
fn a_step_is_copied_with_its_maker(rt: HostRuntime) -> Result<(), NoMemory> {
    let made = Made {
        maker: Maker::Editor(2),
        step: Step::Fail(3),
    };
    let copied = made.copy(rt.alloc())?;
    assert!(rt; matches!(copied.maker, Maker::Editor(2)));
    assert!(rt; matches!(copied.step, Step::Fail(3)));
    Ok(())
}
