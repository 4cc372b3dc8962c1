//! The function of each permission, and the names of requests.
use std::alloc::Global;
use tm_list::{Copied, NoMemory, Same, Seq};
use tm_number::{Addr, AddrRange, Base, Number, Range};
use tm_pattern::literal;
use tm_types::entry::{Args, InetKind, Prefer, StatField, StatPlace, UnixKind};
use tm_types::kept::Kept;
use tm_types::policy::Function;
use tm_types::request::{Attributes, Request, Stat};
use tm_types::unions::{AddrUnion, NameUnion, NumberUnion};
use tm_types::{function_at, function_of};
use tm_word::Word;

#[test]
fn each_permission_has_its_function(rt: HostRuntime) {
    let alloc = rt.alloc();
    let path = Args::Path(NameUnion::Group(Seq::new(alloc)));
    for (perm, want) in [
        (0u8, Some(Function::Execute)),
        (1, Some(Function::Open)),
        (3, Some(Function::Open)),
        (4, Some(Function::Unlink)),
        (5, Some(Function::Getattr)),
        (10, Some(Function::Unmount)),
        (11, None),
        (255, None),
    ] {
        assert!(rt; function_at(&path, perm) == want);
    }
    assert!(rt; function_of(&path, 7) == Function::Truncate);
}

#[test]
fn each_kind_of_socket_has_its_functions(rt: HostRuntime) -> Result<(), NoMemory> {
    let alloc = rt.alloc();
    for (kind, wanted) in [
        (InetKind::Stream, Some(Function::InetStreamConnect)),
        (InetKind::Dgram, None),
        (InetKind::Raw, None),
    ] {
        let addr = AddrUnion::Group(Seq::new(alloc));
        let args = Args::inet(alloc, kind, addr, NumberUnion::Group(Seq::new(alloc)))?;
        assert!(rt; function_at(&args, 2) == wanted);
    }
    assert!(rt; function_at(&Args::Manual(Seq::new(alloc)), 0) == None);
    Ok(())
}

/// The literal of a name.
fn name(alloc: Global, written: &str) -> Result<NameUnion, NoMemory> {
    let word = Seq::from_bytes(alloc, written.as_bytes())?;
    Ok(NameUnion::One(literal(alloc, &word)?))
}

fn number() -> NumberUnion {
    let one = Number {
        value: 1,
        base: Base::Decimal,
    };
    NumberUnion::One(Range {
        low: one,
        high: one,
    })
}

fn address() -> AddrUnion {
    let one = Addr::V4(1);
    AddrUnion::One(AddrRange {
        low: one,
        high: one,
    })
}

/// A request with these arguments and the permission at place 1, and nothing recorded besides.
fn request(alloc: Global, args: Args) -> Result<Request, NoMemory> {
    Request::new(alloc, args, 1, Attributes::none(alloc))
}

/// The arguments of a row with one name.
fn with_one_name(alloc: Global, row: u8) -> Result<Args, NoMemory> {
    match row {
        0 => Ok(Args::Path(name(alloc, "/a b")?)),
        1 => Ok(Args::Execute(name(alloc, "/")?, Prefer::Keep)),
        2 => Ok(Args::PathNumber(name(alloc, "/a/b")?, number())),
        3 => Args::device(alloc, name(alloc, "a/")?, number(), number(), number()),
        _ => Ok(Args::Unix(UnixKind::Dgram, name(alloc, "\0u")?)),
    }
}

/// The arguments of a mount.
fn mount(alloc: Global) -> Result<Args, NoMemory> {
    let device = name(alloc, "a")?;
    let point = name(alloc, "/b")?;
    Args::mount(alloc, device, point, name(alloc, "c")?, number())
}

/// The arguments of a row with another number of names, or with a name of another kind.
fn with_names(alloc: Global, row: u8) -> Result<Args, NoMemory> {
    match row {
        5 => Ok(Args::Env(literal(alloc, &Seq::from_bytes(alloc, b"PATH")?)?)),
        6 => mount(alloc),
        7 => Args::inet(alloc, InetKind::Raw, address(), number()),
        _ => Ok(Args::Manual(Seq::from_bytes(alloc, b"<kernel> /a")?)),
    }
}

/// A request of each row.
fn asked(alloc: Global, row: u8) -> Result<Request, NoMemory> {
    if row < 5 {
        request(alloc, with_one_name(alloc, row)?)
    } else {
        request(alloc, with_names(alloc, row)?)
    }
}

/// Appends a name in brackets.
fn push_name(text: &mut Vec<u8>, name: &Word) -> Result<(), NoMemory> {
    text.push(b'[')?;
    text.extend_from_slice(name.bytes())?;
    text.push(b']')?;
    Ok(())
}

/// The names of a request, each in brackets.
fn names_in(alloc: Global, request: &Request) -> Result<Vec<u8>, NoMemory> {
    let mut text = Vec::new(alloc);
    for place in 0..4 {
        if let Some(name) = request.name(place) {
            push_name(&mut text, name)?;
        }
    }
    Ok(text)
}

/// The names of the request of a row, each in brackets.
fn names_of(alloc: Global, row: u8) -> Result<Vec<u8>, NoMemory> {
    let request = asked(alloc, row)?;
    names_in(alloc, &request)
}

#[test]
fn a_request_has_the_words_of_its_names(rt: HostRuntime) -> Result<(), NoMemory> {
    for (row, names) in [
        (0, "[/a b]"),
        (1, "[/]"),
        (2, "[/a/b]"),
        (3, "[a/]"),
        (4, "[\0u]"),
        (5, "[PATH]"),
        (6, "[a][/b][c]"),
        (7, ""),
        (8, ""),
    ] {
        let text = names_of(rt.alloc(), row)?;
        assert_eq!(rt; text.as_slice(), names.as_bytes());
    }
    Ok(())
}

/// All that can be recorded of a request, each once.
fn recorded(alloc: Global) -> Result<Attributes, NoMemory> {
    let mut argv = Seq::new(alloc);
    argv.push(Seq::from_bytes(alloc, b"sh")?)?;
    let mut envp = Seq::new(alloc);
    envp.push((
        Seq::from_bytes(alloc, b"PATH")?,
        Seq::from_bytes(alloc, b"/bin")?,
    ))?;
    let mut stats = Seq::new(alloc);
    stats.push(Stat::Number(StatPlace::Path1, StatField::Uid, 7))?;
    Ok(Attributes {
        real_path: Some(Seq::from_bytes(alloc, b"/bin/sh")?),
        argv,
        envp,
        target: Some(Seq::from_bytes(alloc, b"there")?),
        stats,
    })
}

/// Appends a word in brackets, where one is there.
fn push_if(text: &mut Vec<u8>, word: Option<&Word>) -> Result<(), NoMemory> {
    match word {
        Some(word) => push_name(text, word),
        None => Ok(()),
    }
}

/// What is recorded of a request, each word in brackets, and how many file attributes.
fn recorded_of(alloc: Global, request: &Request) -> Result<(Vec<u8>, usize), NoMemory> {
    let mut text = Vec::new(alloc);
    push_if(&mut text, request.real_path())?;
    push_if(&mut text, request.argv().first())?;
    for (name, value) in request.envp() {
        push_name(&mut text, name)?;
        push_name(&mut text, value)?;
    }
    push_if(&mut text, request.target())?;
    Ok((text, request.stats().len()))
}

#[test]
fn a_request_and_its_copy_tell_what_is_recorded(rt: HostRuntime) -> Result<(), NoMemory> {
    let alloc = rt.alloc();
    for (attributes, words, stats) in [
        (Attributes::none(alloc), "", 0),
        (recorded(alloc)?, "[/bin/sh][sh][PATH][/bin][there]", 1),
    ] {
        let path = Args::Path(name(alloc, "/a")?);
        let request = Request::new(alloc, path, 1, attributes)?;
        let copy = request.copy(alloc)?;
        for request in [&request, &copy] {
            let (text, count) = recorded_of(alloc, request)?;
            assert_eq!(rt; text.as_slice(), words.as_bytes());
            assert!(rt; count == stats);
        }
        drop(request);
        let (text, count) = recorded_of(alloc, &copy)?;
        assert_eq!(rt; text.as_slice(), words.as_bytes());
        assert!(rt; count == stats);
    }
    Ok(())
}

#[test]
fn what_is_kept_apart_is_copied_compared_and_taken_out(rt: HostRuntime) -> Result<(), NoMemory> {
    let alloc = rt.alloc();
    let kept = Kept::new(alloc, 7u32)?;
    let copy = kept.copy(alloc)?;
    assert!(rt; kept.same(&copy));
    assert!(rt; !kept.same(&Kept::new(alloc, 8u32)?));
    assert!(rt; *kept.get() == 7);
    assert!(rt; copy.into_value() == 7);
    Ok(())
}
