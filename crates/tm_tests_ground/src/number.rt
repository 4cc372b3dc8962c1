//! Numbers and ranges.
use std::alloc::Global;
use tm_list::{Copied, NoMemory};
use tm_number::{
    Addr, AddrRange, Base, Number, NumberFault, Range, is_numeral, plain_number, read_number,
    read_range, value_of_digits, write_decimal, write_number, write_range,
};

fn written(alloc: Global, text: &[u8]) -> Result<Option<Vec<u8>>, NoMemory> {
    match read_range(text) {
        Ok(range) => {
            let mut out = Vec::new(alloc);
            write_range(alloc, &range, &mut out)?;
            Ok(Some(out))
        }
        Err(_) => Ok(None),
    }
}

#[test]
fn numbers_of_each_base(rt: HostRuntime) -> Result<(), NoMemory> {
    let alloc = rt.alloc();
    for (text, value, base, printed) in [
        ("0", 0, Base::Decimal, "0"),
        ("00", 0, Base::Octal, "00"),
        ("493", 493, Base::Decimal, "493"),
        ("0755", 493, Base::Octal, "0755"),
        ("00017", 15, Base::Octal, "017"),
        ("0X1f", 31, Base::Hex, "0x1F"),
        ("0x000F", 15, Base::Hex, "0xF"),
        (
            "18446744073709551615",
            u64::MAX,
            Base::Decimal,
            "18446744073709551615",
        ),
    ] {
        let number = Number { value, base };
        assert!(rt; read_number(text.as_bytes()) == Ok(number), "at {text}");
        let mut out = Vec::new(alloc);
        write_number(alloc, &number, &mut out)?;
        assert_eq!(rt; out.as_slice(), printed.as_bytes(), "at {text}");
    }
    Ok(())
}

#[test]
fn decimals_behind_a_text(rt: HostRuntime) -> Result<(), NoMemory> {
    let alloc = rt.alloc();
    let mut out = Vec::new(alloc);
    out.extend_from_slice(b"at ")?;
    write_decimal(alloc, 0, &mut out)?;
    write_decimal(alloc, 1024, &mut out)?;
    assert_eq!(rt; out.as_slice(), b"at 01024".as_slice());
    Ok(())
}

#[test]
fn faults_of_numbers_and_ranges(rt: HostRuntime) {
    for (text, fault) in [
        ("", NumberFault::NotANumber),
        ("08", NumberFault::NotANumber),
        ("0x", NumberFault::NotANumber),
        ("1a", NumberFault::NotANumber),
        ("18446744073709551616", NumberFault::TooBig),
        ("0x10000000000000000", NumberFault::TooBig),
    ] {
        assert!(rt; read_number(text.as_bytes()) == Err(fault), "at {text}");
        assert!(rt; read_range(text.as_bytes()) == Err(fault), "at {text}");
    }
    for (text, fault) in [
        ("9-3", NumberFault::Backwards),
        ("1-2-3", NumberFault::NotANumber),
        ("18446744073709551616-x", NumberFault::NotANumber),
        ("18446744073709551616-3", NumberFault::TooBig),
        ("-", NumberFault::NotANumber),
    ] {
        assert!(rt; read_range(text.as_bytes()) == Err(fault), "at {text}");
    }
}

#[test]
fn ranges_printed_and_held(rt: HostRuntime) -> Result<(), NoMemory> {
    let alloc = rt.alloc();
    for (text, printed) in [
        ("5-5", "5"),
        ("5-05", "5-05"),
        ("0x5-0X5", "0x5"),
        ("0700-0755", "0700-0755"),
    ] {
        match written(alloc, text.as_bytes())? {
            Some(out) => assert_eq!(rt; out.as_slice(), printed.as_bytes(), "at {text}"),
            None => assert!(rt; false, "no range: {text}"),
        }
    }
    let low = Number {
        value: 448,
        base: Base::Octal,
    };
    let high = Number {
        value: 493,
        base: Base::Octal,
    };
    let range = Range { low, high }.copy(alloc)?;
    assert!(rt; range.low == low && range.high == high);
    for (value, held) in [(447, false), (448, true), (493, true), (494, false)] {
        assert_eq!(rt; range.has(value), held, "at {value}");
    }
    Ok(())
}

/// The value of digits, where they are of this radix; within it, none where it has more than 64
/// bits.
fn value_at(radix: u8, digits: &[u8]) -> Option<Option<u64>> {
    if radix < 2 || radix > 16 || !is_numeral(radix, digits) {
        return None;
    }
    Some(value_of_digits(radix, digits))
}

#[test]
fn plain_numbers_below_a_limit(rt: HostRuntime) {
    for (limit, text, want) in [
        (256, "0", Some(0)),
        (256, "255", Some(255)),
        (256, "256", None),
        (256, "01", None),
        (256, "", None),
        (256, "0x1", None),
        (256, "1 ", None),
        (4294967296, "4294967295", Some(4294967295)),
        (4294967296, "4294967296", None),
        (18446744073709551616, "18446744073709551615", Some(u64::MAX)),
        (18446744073709551616, "18446744073709551616", None),
        (
            18446744073709551616,
            "99999999999999999999999999999999999999999",
            None,
        ),
    ] {
        assert_eq!(rt; plain_number(limit, text.as_bytes()), want, "at {text}");
    }
    for (radix, digits, want) in [
        (10, "10", Some(Some(10))),
        (8, "17", Some(Some(15))),
        (16, "fF", Some(Some(255))),
        (16, "ffffffffffffffff", Some(Some(u64::MAX))),
        (16, "10000000000000000", Some(None)),
        (8, "18", None),
        (10, "a", None),
        (16, "g", None),
        (10, "", None),
    ] {
        assert_eq!(rt; value_at(radix, digits.as_bytes()), want, "at {digits}");
    }
}

#[test]
fn addresses_of_one_family(rt: HostRuntime) -> Result<(), NoMemory> {
    let (low, high) = (Addr::V4(5), Addr::V4(9));
    let range = AddrRange { low, high }.copy(rt.alloc())?;
    assert!(rt; range.low == low && range.high == high);
    for (a, held) in [
        (Addr::V4(4), false),
        (Addr::V4(5), true),
        (Addr::V4(9), true),
        (Addr::V4(10), false),
        (Addr::V6(7), false),
    ] {
        assert_eq!(rt; range.has(&a), held);
    }
    Ok(())
}
