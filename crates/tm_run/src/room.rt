//! Bytes and numbers that are written where a text has room for them.
ghost use Rattle.std.specs.Prelude.{◌≡◌, ◌+◌, ◌≤◌, ◌++◌, ◌∷◌, [], length, OnOk, decimal, nat_lt, true};
ghost use Rattle.tm_run.specs.Room.{room};
ghost use Rattle.tm_run.specs.Written.{is_plain, is_wide};

use itoa::Buffer;
use tm_list::NoMemory;

// Makes room for so many bytes.
#[tactic(auto, unfolding(crate::specs::Room::room))]
pub(crate) fn make_room(bytes: usize, out: &mut Vec<u8>) -> Result<(), NoMemory>
    ensures text { out.new.items ≡ out.old.items }
    ensures room { OnOk result (bytes ≤ room out.new) }
{
    out.reserve(bytes)
}

// A byte.
#[inline]
#[tactic(auto, unfolding(crate::specs::Room::room))]
pub(crate) fn put(byte: u8, out: &mut Vec<u8>)
    requires { 1 ≤ room out.old }
    ensures text { out.new.items ≡ out.old.items ++ byte ∷ [] }
    ensures room { room out.old ≤ room out.new + 1 }
{
    out.push_reserved(byte);
}

// The bytes of a text.
#[inline]
pub(crate) fn put_text(text: &[u8], out: &mut Vec<u8>)
    requires { length text.now ≤ room out.old }
    ensures text { out.new.items ≡ out.old.items ++ text.now }
    ensures room { room out.old ≤ room out.new + length text.now }
{
    for byte in text {
        put(*byte, out);
    }
}

// The digits of a number of several digits.
#[inline(never)]
fn put_digits(number: u64, out: &mut Vec<u8>)
    requires { length (decimal number) ≤ room out.old }
    ensures text { out.new.items ≡ out.old.items ++ decimal number }
    ensures room { room out.old ≤ room out.new + length (decimal number) }
{
    let mut buffer = Buffer::new();
    put_text(buffer.format(number).as_bytes(), out);
}

// A number in decimal; that of one digit, as most are, without a call.
#[inline]
#[tactic(auto, using(std::proofs::lemmas::Fmt::decimal_digit))]
fn put_number(number: u64, out: &mut Vec<u8>)
    requires { length (decimal number) ≤ room out.old }
    ensures text { out.new.items ≡ out.old.items ++ decimal number }
    ensures room { room out.old ≤ room out.new + length (decimal number) }
{
    if number < 10 {
        put(b'0' + number as u8, out);
    } else {
        put_digits(number, out);
    }
}

// A text and a number of 8 bits.
#[inline]
#[tactic(auto, using(crate::proofs::Digits::digits_of_8_bits))]
pub(crate) fn put_small(front: &[u8], number: u8, out: &mut Vec<u8>)
    requires { length front.now + 3 ≤ room out.old }
    ensures text { out.new.items ≡ out.old.items ++ front.now ++ decimal number }
    ensures room { room out.old ≤ room out.new + (length front.now + 3) }
    ensures range { nat_lt number 256 ≡ true }
{
    put_text(front, out);
    put_number(number as u64, out);
}

// A text and a number of 32 bits.
#[inline]
#[tactic(auto, using(crate::proofs::Digits::digits_of_32_bits))]
pub(crate) fn put_plain(front: &[u8], number: u32, out: &mut Vec<u8>)
    requires { length front.now + 10 ≤ room out.old }
    ensures text { out.new.items ≡ out.old.items ++ front.now ++ decimal number }
    ensures room { room out.old ≤ room out.new + (length front.now + 10) }
    ensures range { is_plain number ≡ true }
{
    put_text(front, out);
    put_number(number as u64, out);
}

// A text and a number of 64 bits.
#[inline]
#[tactic(auto, using(crate::proofs::Digits::digits_of_64_bits))]
pub(crate) fn put_wide(front: &[u8], number: u64, out: &mut Vec<u8>)
    requires { length front.now + 20 ≤ room out.old }
    ensures text { out.new.items ≡ out.old.items ++ front.now ++ decimal number }
    ensures room { room out.old ≤ room out.new + (length front.now + 20) }
    ensures range { is_wide number ≡ true }
{
    put_text(front, out);
    put_number(number, out);
}
