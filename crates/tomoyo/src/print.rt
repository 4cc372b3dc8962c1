//! The line of the counts that `print` puts.
ghost use Rattle.std.specs.Prelude.{◌≡◌, ◌++◌, decimal, IfOk, OnOk};
ghost use Rattle.tm_rules.specs.Prelude.{IsFew};
ghost use Rattle.tomoyo.specs.Print.{counts_text};

use std::alloc::Global;
use tm_list::NoMemory;
use tm_number::{Base, Number, write_number};
use tm_types::policy::Policy;
use tm_verify::policy::count_live;
use tm_word::Text;

/// Appends a count.
pub(crate) fn push_count(alloc: Global, count: u64, out: &mut Vec<u8>) -> Result<(), NoMemory>
    ensures { OnOk result (out.new.items ≡ out.old.items ++ decimal count) }
{
    let number = Number {
        value: count,
        base: Base::Decimal,
    };
    write_number(alloc, &number, out)
}

/// The line of how many domains of a policy are live, and how many entries these have.
pub fn counts_line(alloc: Global, policy: &Policy) -> Result<Text, NoMemory>
    requires { IsFew policy.now }
    ensures { IfOk result (λ line. line ≡ counts_text policy.now) }
{
    let (domains, entries) = count_live(policy);
    let mut line = Vec::new(alloc);
    line.extend_from_slice(b"domains ")?;
    push_count(alloc, domains, &mut line)?;
    line.extend_from_slice(b" entries ")?;
    push_count(alloc, entries, &mut line)?;
    line.push(b'\n')?;
    Ok(Text::from_vec(line))
}
