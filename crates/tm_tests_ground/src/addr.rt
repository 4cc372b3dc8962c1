//! Addresses and their ranges.
use tm_addr::{AddrFault, read_addr, read_addr_range, write_addr, write_addr_range};
use tm_list::NoMemory;
use tm_number::Addr;

#[test]
fn addresses_printed(rt: HostRuntime) -> Result<(), NoMemory> {
    let alloc = rt.alloc();
    for (text, printed) in [
        ("10.1.2.3", "10.1.2.3"),
        ("255.255.255.255", "255.255.255.255"),
        ("0.0.0.0", "0.0.0.0"),
        ("2001:0DB8:0:0:1:0:0:1", "2001:db8::1:0:0:1"),
        ("0:0:0:0:0:0:0:1", "::1"),
        ("0:0:0:0:0:0:0:0", "::"),
        ("::ffff:10.0.0.1", "::ffff:a00:1"),
        ("1:2:3:4:5:6:7::", "1:2:3:4:5:6:7:0"),
        ("::2:3:4:5:6:7:8", "0:2:3:4:5:6:7:8"),
        ("1::1.2.3.4", "1::102:304"),
        ("::1.2.3.4", "::102:304"),
        ("1:0:0:2:0:0:0:3", "1:0:0:2::3"),
        ("1:2:3:4:5:6:0:0", "1:2:3:4:5:6::"),
        (
            "FFFF:ffff:FFFF:ffff:FFFF:ffff:255.255.255.255",
            "ffff:ffff:ffff:ffff:ffff:ffff:ffff:ffff",
        ),
    ] {
        match read_addr(text.as_bytes()) {
            Ok(a) => {
                let mut out = Vec::new(alloc);
                write_addr(alloc, &a, &mut out)?;
                assert_eq!(rt; out.as_slice(), printed.as_bytes(), "at {text}");
            }
            Err(_) => assert!(rt; false, "no address: {text}"),
        }
    }
    Ok(())
}

#[test]
fn values_of_addresses(rt: HostRuntime) {
    for (text, a) in [
        ("10.1.2.3", Addr::V4(0x0A01_0203)),
        ("::1", Addr::V6(1)),
        ("1::", Addr::V6(0x0001_0000_0000_0000_0000_0000_0000_0000)),
        (
            "2001:db8::1:0:0:1",
            Addr::V6(0x2001_0DB8_0000_0000_0001_0000_0000_0001),
        ),
    ] {
        assert!(rt; read_addr(text.as_bytes()) == Ok(a), "at {text}");
    }
}

#[test]
fn texts_that_are_no_address(rt: HostRuntime) {
    for text in [
        "",
        "1",
        "1.2.3",
        "1.2.3.4.5",
        "1.2.3.256",
        "01.2.3.4",
        "0x1.2.3.4",
        "1..2.3",
        ":",
        ":::",
        "1::2::3",
        "1:2",
        "12345::",
        "::g",
        "1:2:3:4:5:6:7:8::",
        "1:2:3:4:5:6:7:8:9",
        "1.2.3.4::",
        "::1.2.3.4:5",
        "1:2:3:4:5:6:7:1.2.3.4",
        "1:2:3:4:5:6:7:",
        ":1::",
        "::1 ",
    ] {
        assert!(rt;
            read_addr(text.as_bytes()) == Err(AddrFault::NotAnAddress),
            "at {text}"
        );
    }
}

#[test]
fn ranges_printed_and_refused(rt: HostRuntime) -> Result<(), NoMemory> {
    let alloc = rt.alloc();
    for (text, printed) in [
        ("10.0.0.0-10.255.255.255", "10.0.0.0-10.255.255.255"),
        ("10.0.0.1", "10.0.0.1"),
        ("10.0.0.1-10.0.0.1", "10.0.0.1"),
        ("::1-0:0:0:0:0:0:0:1", "::1"),
        ("::-ffff::", "::-ffff::"),
    ] {
        match read_addr_range(text.as_bytes()) {
            Ok(range) => {
                let mut out = Vec::new(alloc);
                write_addr_range(alloc, &range, &mut out)?;
                assert_eq!(rt; out.as_slice(), printed.as_bytes(), "at {text}");
            }
            Err(_) => assert!(rt; false, "no range: {text}"),
        }
    }
    for (text, fault) in [
        ("10.0.0.1-::1", AddrFault::Mixed),
        ("::1-10.0.0.1", AddrFault::Mixed),
        ("10.0.0.2-10.0.0.1", AddrFault::Backwards),
        ("::2-::1", AddrFault::Backwards),
        ("10.0.0.1-", AddrFault::NotAnAddress),
        ("x-::1", AddrFault::NotAnAddress),
        ("::1-::2-::3", AddrFault::NotAnAddress),
    ] {
        assert!(rt; read_addr_range(text.as_bytes()) == Err(fault), "at {text}");
    }
    Ok(())
}
