//! The tests of equality of the definitions, as they are computed.
ghost use Rattle.std.specs.Prelude.{◌≡◌, ◌↔◌, IsTrue};
ghost use Rattle.tm_rules.specs.Types.{Entry};
ghost use Rattle.tm_rules.specs.Prelude.{args_equal, conds_equal, same_line};
ghost use Rattle.tm_types.specs.WordTexts.{texts_equal};

use tm_types::entry::{Args, Cond, Entry};
use tm_types::list::Same;
use tm_types::word::Text;

fn args_equal(left: &Args, right: &Args) -> bool
    ensures { result ≡ args_equal left.now right.now }
{
    left.same(right)
}

fn conds_equal(left: &Cond, right: &Cond) -> bool
    ensures { result ≡ conds_equal left.now right.now }
{
    left.same(right)
}

/// Whether two lines share one entry: equal arguments and equal conditions, where equality of
/// numbers includes their base and the order of conditions counts.
pub fn same_line(left: &Entry, right: &Entry) -> bool
    ensures { result ≡ same_line left.now right.now }
{
    args_equal(&left.args, &right.args) && conds_equal(&left.cond, &right.cond)
}

/// Two lines share one entry where their arguments are equal and their conditions are equal, and
/// nowhere else: the test of the definitions is equality.
pub fn same_line_is_equality()
    ensures { (left right : Entry)
        → IsTrue (same_line left right) ↔ ((left.args ≡ right.args) × (left.cond ≡ right.cond)) }
{}
