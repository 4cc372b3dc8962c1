//! How many words of a line its arguments take, for a caller that reads on behind them.
use std::alloc::Global;
use tm_file::read_file_acl;
use tm_net::read_net_acl;
use tm_types::step::LineFault;
use tm_word::normal_words;

/// How many words a line of files takes.
fn taken_by_file(alloc: Global, line: &str) -> Result<usize, LineFault> {
    let words = normal_words(alloc, line.as_bytes())?;
    let (_, _, taken) = read_file_acl(alloc, words.as_slice())?;
    Ok(taken)
}

/// How many words another line takes.
fn taken_by_net(alloc: Global, line: &str) -> Result<usize, LineFault> {
    let words = normal_words(alloc, line.as_bytes())?;
    let (_, _, taken) = read_net_acl(alloc, words.as_slice())?;
    Ok(taken)
}

#[test]
fn words_that_a_file_line_takes(rt: HostRuntime) -> Result<(), LineFault> {
    for (line, count) in [
        ("file read /a task.uid=0", 3),
        ("file execute /a keep task.uid=0", 4),
        ("file execute/read /a keep", 3),
        ("file execute /a <kernel> /b c", 5),
        ("file execute /a /b /c", 4),
        ("file mount a /b c 1", 6),
    ] {
        assert_eq!(rt; taken_by_file(rt.alloc(), line)?, count, "at {line}");
    }
    Ok(())
}

#[test]
fn words_that_another_line_takes(rt: HostRuntime) -> Result<(), LineFault> {
    for (line, count) in [
        ("network inet stream bind ::1 8 task.uid=0", 6),
        ("network unix dgram send /a", 5),
        ("misc env A task.uid=0", 3),
        ("task manual_domain_transition <kernel> /a c", 4),
    ] {
        assert_eq!(rt; taken_by_net(rt.alloc(), line)?, count, "at {line}");
    }
    Ok(())
}
