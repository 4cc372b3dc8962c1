//! What is wrong with a text that is no domain name, and at which word.
use std::alloc::{AllocError, AllocFailed};
use std::test::Fail;
use tm_domain::{DomainFault, read_domain};

#[test]
fn texts_that_are_no_names_have_their_first_fault(rt: HostRuntime) {
    for (text, fault) in [
        ("", DomainFault::NoNamespace),
        ("kernel", DomainFault::NoNamespace),
        ("<>", DomainFault::NoNamespace),
        ("<a>", DomainFault::NoNamespace),
        ("<", DomainFault::NoNamespace),
        ("/a", DomainFault::NoNamespace),
        ("</\\q> x", DomainFault::NoNamespace),
        ("<kernel> x", DomainFault::BadPath(1)),
        ("<kernel>  /a", DomainFault::BadPath(1)),
        ("<kernel> /a /\\q b", DomainFault::BadPath(2)),
        ("<kernel> /a ", DomainFault::BadPath(2)),
        ("<kernel> /a <kernel>", DomainFault::BadPath(2)),
    ] {
        match read_domain(rt.alloc(), text.as_bytes()) {
            Ok(_) => assert!(rt; false, "read: {text}"),
            Err(found) => assert_eq!(rt; found, fault, "at {text}"),
        }
    }
}

#[test]
fn messages_of_faults(rt: HostRuntime) -> Result<(), Fail> {
    for (fault, text) in [
        (
            DomainFault::NoNamespace,
            "a domain name begins with <kernel> or a path in angle brackets",
        ),
        (
            DomainFault::BadPath(2),
            "word 2 after the namespace word is no path",
        ),
        (DomainFault::TooLong, "a domain name of over 4,085 bytes"),
        (DomainFault::from(AllocError), "out of memory"),
        (
            DomainFault::from(AllocFailed { value: 1u8 }),
            "out of memory",
        ),
    ] {
        let printed = format!(in rt.alloc(); "{fault}")?;
        assert_eq!(rt; printed.as_str(), text);
    }
    Ok(())
}
