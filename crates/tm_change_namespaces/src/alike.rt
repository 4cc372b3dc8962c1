//! Lists without repetition: a member joins once, and leaves wherever it stands.
ghost use Rattle.std.specs.Prelude.{◌≡◌, OnOk, OnErr};
ghost use Rattle.std.specs.List.{list_any};
ghost use Rattle.tm_rules.specs.Prelude.{IsShort, joining, kind_number, leaving, options_equal};
ghost use Rattle.tm_word.specs.Prelude.{texts_equal};
ghost use Rattle.tm_change_namespaces.specs.Pairs.{is_pair, leaving_pair};

use std::alloc::AllocError;
use tm_list::{NoMemory, Same, Seq};
use tm_number::{AddrRange, Range};
use tm_types::policy::{Control, ControlKind};
use tm_word::{Pattern, Text, Word, texts_equal};

/// A member of a list without repetition, which knows what it repeats.
pub trait Alike: Drop {
    ghost use Rattle.std.specs.Prelude.{Bool};

    ghost alike: { Self → Self → Bool };

    /// Whether the other one is the same member.
    fn alike(&self, other: &Self) -> bool
        ensures { result ≡ alike self.now other.now };
}

impl Alike for Word {
    ghost use Rattle.tm_word.specs.Prelude.{texts_equal};

    ghost alike = { texts_equal };

    fn alike(&self, other: &Self) -> bool {
        texts_equal(self, other)
    }
}

impl Alike for Pattern {
    ghost use Rattle.tm_rules.specs.Prelude.{patterns_equal};

    ghost alike = { patterns_equal };

    fn alike(&self, other: &Self) -> bool {
        self.same(other)
    }
}

impl Alike for Range {
    ghost use Rattle.tm_rules.specs.Prelude.{ranges_equal};

    ghost alike = { ranges_equal };

    #[tactic(auto, using(crate::proofs::Tests::ranges_are_same))]
    fn alike(&self, other: &Self) -> bool {
        *self == *other
    }
}

impl Alike for AddrRange {
    ghost use Rattle.tm_rules.specs.Prelude.{same_addr_range};

    ghost alike = { same_addr_range };

    #[tactic(auto, using(crate::proofs::Tests::addr_ranges_are_same))]
    fn alike(&self, other: &Self) -> bool {
        *self == *other
    }
}

impl<A: Alike, B: Alike> Alike for (A, B) {
    ghost use Rattle.std.specs.Prelude.{◌&&◌};

    ghost alike = { λ x y. A.alike x.0 y.0 && B.alike x.1 y.1 };

    fn alike(&self, other: &Self) -> bool {
        self.0.alike(&other.0) && self.1.alike(&other.1)
    }
}

// The place of a kind in the order in which they are tried.
fn kind_number(kind: ControlKind) -> u8
    ensures { result ≡ kind_number kind }
{
    kind as u8
}

// Whether both are `any`, or the same text.
fn sides_equal(left: &Option<Text>, right: &Option<Text>) -> bool
    ensures { result ≡ options_equal texts_equal left.now right.now }
{
    match left {
        Some(left) => match right {
            Some(right) => texts_equal(left, right),
            None => false,
        },
        None => match right {
            Some(_) => false,
            None => true,
        },
    }
}

impl Alike for Control {
    ghost use Rattle.tm_rules.specs.Prelude.{same_control};

    ghost alike = { same_control };

    fn alike(&self, other: &Self) -> bool {
        kind_number(self.kind) == kind_number(other.kind)
            && sides_equal(&self.program, &other.program)
            && sides_equal(&self.domain, &other.domain)
            && self.last == other.last
    }
}

/// Whether the list has the member. Takes no memory.
pub fn is_there<T: Alike>(item: &T, list: &[T]) -> bool
    ensures { result ≡ list_any (T.alike item.now) list.now }
{
    for member in list {
        if item.alike(member) {
            return true;
        }
    }
    false
}

/// Whether the list has the pair of these two. Takes no memory.
pub fn is_pair_there<A: Alike, B: Alike>(first: &A, second: &B, list: &[(A, B)]) -> bool
    ensures { result ≡ list_any (is_pair A.alike B.alike first.now second.now) list.now }
{
    for pair in list {
        if first.alike(&pair.0) && second.alike(&pair.1) {
            return true;
        }
    }
    false
}

/// Puts a member last where it isn't there. Errors: want of memory, also where the list would have
/// 2^32 members; the list is then as before.
pub fn join<T: Alike>(list: &mut Seq<T>, item: T) -> Result<(), NoMemory>
    ensures done { OnOk result (list.new ≡ joining T.alike item list.old) }
    ensures kept { OnErr result (list.new ≡ list.old) }
    ensures short { IsShort list.old → IsShort list.new }
{
    if is_there(&item, list.as_slice()) {
        drop(item);
        return Ok(());
    }
    if list.len() >= 4294967295 {
        drop(item);
        return Err(AllocError);
    }
    list.push(item)
}

/// Takes a member out wherever it stands, and keeps the order of the others. Takes no memory.
pub fn leave<T: Alike>(list: &mut Seq<T>, item: &T)
    ensures done { list.new ≡ leaving T.alike item.now list.old }
    ensures short { IsShort list.old → IsShort list.new }
{
    let mut members = list.take();
    members.retain(|member| !item.alike(member));
    *list = Seq::from_vec(members);
}

/// Takes the pair of these two out wherever it stands, and keeps the order of the others. Takes no
/// memory.
pub fn leave_pair<A: Alike, B: Alike>(list: &mut Seq<(A, B)>, first: &A, second: &B)
    ensures done { list.new ≡ leaving_pair A.alike B.alike first.now second.now list.old }
    ensures short { IsShort list.old → IsShort list.new }
{
    let mut pairs = list.take();
    pairs.retain(|pair| !(first.alike(&pair.0) && second.alike(&pair.1)));
    *list = Seq::from_vec(pairs);
}
