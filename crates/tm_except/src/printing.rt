//! Printing the lines of the exception policy.
ghost use Rattle.std.specs.Prelude.{◌≡◌, ◌∷◌, [], ◌++◌, List, Bool, true, false, Ok, codes, IfOk, OnOk, OnErr};
ghost use Rattle.std.specs.Fmt.{decimal};
ghost use Rattle.std.specs.List.{list_all};
ghost use Rattle.tm_word.specs.Prelude.{Text, is_word, joined, lines_of, spell, spelled_pattern, words_of};
ghost use Rattle.tm_line.specs.Lines.{spaced};
ghost use Rattle.tm_rules.specs.Types.{ExceptLine, ExceptRule};
ghost use Rattle.tm_line.specs.Namespaces.{line_text, IsNamespace};
ghost use Rattle.tm_except.specs.Reading.{line, line_of};
ghost use Rattle.tm_except.specs.Written.{is_rule, is_listed, keeps_words};
ghost use Rattle.tm_except.specs.Printing.{range_text, addr_range_text, path_group_words, number_group_words, address_group_words, aggregator_words, kind_text, program_text, domain_words, control_words, rule_words, line_words, path_groups_text, number_groups_text, address_groups_text, aggregators_text, controls_text, lists_text};

use crate::reading::CONTROLS;
use std::alloc::Global;
use tm_line::addr::write_addr_range;
use tm_line::print_domain;
use tm_list::NoMemory;
use tm_number::{AddrRange, Range, write_decimal, write_range};
use tm_pattern::print_pattern;
use tm_types::policy::{Control, ControlKind, ExceptRule, Namespace};
use tm_word::{Pattern, Text, Word, write_word};

/// Appends the namespace word and a word after a space, or a part of them.
fn push_head(ns: &[u8], word: &[u8], out: &mut Vec<u8>) -> Result<(), NoMemory>
    ensures { OnOk result (out.new.items ≡ out.old.items ++ (ns.now ++ 32 ∷ word.now)) }
{
    out.extend_from_slice(ns)?;
    out.push(b' ')?;
    out.extend_from_slice(word)
}

/// Appends a word after a space, or a part of it.
fn push_word(word: &[u8], out: &mut Vec<u8>) -> Result<(), NoMemory>
    ensures { OnOk result (out.new.items ≡ out.old.items ++ 32 ∷ word.now) }
{
    out.push(b' ')?;
    out.extend_from_slice(word)
}

/// A name's spelling.
fn name_text(alloc: Global, name: &Word) -> Result<Vec<u8>, NoMemory>
    ensures { IfOk result (λ text. text.items ≡ spell name.now) }
{
    let mut text = Vec::new(alloc);
    write_word(alloc, name, &mut text)?;
    Ok(text)
}

/// A pattern's spelling.
fn pattern_text(alloc: Global, pattern: &Pattern) -> Result<Vec<u8>, NoMemory>
    ensures { IfOk result (λ text. text.items ≡ spelled_pattern pattern.now) }
{
    let mut text = Vec::new(alloc);
    print_pattern(alloc, pattern, &mut text)?;
    Ok(text)
}

/// The printed form of a range of numbers.
#[tactic(auto, unfolding(crate::specs::Printing::range_text))]
fn range_text(alloc: Global, range: &Range) -> Result<Vec<u8>, NoMemory>
    ensures { IfOk result (λ text. text.items ≡ range_text range.now) }
{
    let mut text = Vec::new(alloc);
    write_range(alloc, range, &mut text)?;
    Ok(text)
}

/// The printed form of a range of addresses.
#[tactic(auto, unfolding(crate::specs::Printing::addr_range_text))]
fn addr_range_text(alloc: Global, range: &AddrRange) -> Result<Vec<u8>, NoMemory>
    ensures { IfOk result (λ text. text.items ≡ addr_range_text range.now) }
{
    let mut text = Vec::new(alloc);
    write_addr_range(alloc, range, &mut text)?;
    Ok(text)
}

/// Appends a line of three words, or a part of it.
fn push_three(
    ns: &[u8],
    word: &[u8],
    first: &[u8],
    second: &[u8],
    out: &mut Vec<u8>,
) -> Result<(), NoMemory>
    ensures { OnOk result
        (out.new.items ≡ out.old.items
        ++ line_text ns.now (word.now ∷ first.now ∷ second.now ∷ [])) }
{
    push_head(ns, word, out)?;
    push_word(first, out)?;
    push_word(second, out)?;
    out.push(b'\n')?;
    Ok(())
}

/// Appends a decimal after a space, or a part of it.
fn push_decimal(alloc: Global, value: u8, out: &mut Vec<u8>) -> Result<(), NoMemory>
    ensures { OnOk result (out.new.items ≡ out.old.items ++ 32 ∷ decimal value) }
{
    out.push(b' ')?;
    write_decimal(alloc, u64::from(value), out)
}

/// Appends the line of a path group, or a part of it.
#[tactic(auto, unfolding(crate::specs::Printing::path_group_words))]
fn push_path_group(
    alloc: Global,
    ns: &[u8],
    name: &Word,
    member: &Pattern,
    out: &mut Vec<u8>,
) -> Result<(), NoMemory>
    ensures { OnOk result (out.new.items ≡ out.old.items ++ line_text ns.now
        (path_group_words name.now member.now)) }
{
    let name = name_text(alloc, name)?;
    let member = pattern_text(alloc, member)?;
    push_three(ns, b"path_group", &name, &member, out)
}

/// Appends the line of a number group, or a part of it.
#[tactic(auto, unfolding(crate::specs::Printing::number_group_words))]
fn push_number_group(
    alloc: Global,
    ns: &[u8],
    name: &Word,
    member: &Range,
    out: &mut Vec<u8>,
) -> Result<(), NoMemory>
    ensures { OnOk result
        (out.new.items ≡ out.old.items
        ++ line_text ns.now (number_group_words name.now member.now)) }
{
    let name = name_text(alloc, name)?;
    let member = range_text(alloc, member)?;
    push_three(ns, b"number_group", &name, &member, out)
}

/// Appends the line of an address group, or a part of it.
#[tactic(auto, unfolding(crate::specs::Printing::address_group_words))]
fn push_address_group(
    alloc: Global,
    ns: &[u8],
    name: &Word,
    member: &AddrRange,
    out: &mut Vec<u8>,
) -> Result<(), NoMemory>
    ensures { OnOk result
        (out.new.items ≡ out.old.items
        ++ line_text ns.now (address_group_words name.now member.now)) }
{
    let name = name_text(alloc, name)?;
    let member = addr_range_text(alloc, member)?;
    push_three(ns, b"address_group", &name, &member, out)
}

/// Appends the line of an aggregator, or a part of it.
#[tactic(auto, unfolding(crate::specs::Printing::aggregator_words))]
fn push_aggregator(
    alloc: Global,
    ns: &[u8],
    first: &Pattern,
    second: &Word,
    out: &mut Vec<u8>,
) -> Result<(), NoMemory>
    ensures { OnOk result (out.new.items ≡ out.old.items ++ line_text ns.now
        (aggregator_words first.now second.now)) }
{
    let first = pattern_text(alloc, first)?;
    let second = name_text(alloc, second)?;
    push_three(ns, b"aggregator", &first, &second, out)
}

/// The keyword of a kind of control.
fn kind_text(kind: ControlKind) -> &'static [u8]
    ensures { result.now ≡ kind_text kind }
{
    CONTROLS[kind as usize].0.as_bytes()
}

/// Appends the program's side after a space, or a part of it.
fn push_program(program: &Option<Text>, out: &mut Vec<u8>) -> Result<(), NoMemory>
    ensures { OnOk result (out.new.items ≡ out.old.items ++ 32 ∷ program_text program.now) }
{
    match program {
        None => push_word(b"any", out),
        Some(path) => push_word(path.bytes(), out),
    }
}

/// Appends the domain's side, each word after a space, or a part of it.
fn push_domain(
    alloc: Global,
    domain: &Option<Text>,
    last: bool,
    out: &mut Vec<u8>,
) -> Result<(), NoMemory>
    ensures { OnOk result (out.new.items ≡ out.old.items ++ spaced (domain_words domain.now last)) }
{
    match domain {
        None => push_word(b"any", out),
        Some(text) => {
            if last {
                push_word(text.bytes(), out)
            } else {
                print_domain(alloc, text, out)
            }
        }
    }
}

/// Appends both sides of a control with the `from` between them, or a part of them.
fn push_sides(alloc: Global, control: &Control, out: &mut Vec<u8>) -> Result<(), NoMemory>
    ensures { OnOk result
        (out.new.items
        ≡ out.old.items
        ++ spaced (program_text control.now.program ∷ codes "from"
        ∷ domain_words control.now.domain control.now.last)) }
{
    push_program(&control.program, out)?;
    push_word(b"from", out)?;
    push_domain(alloc, &control.domain, control.last, out)
}

/// Appends the line of a control, or a part of it.
#[tactic(auto, unfolding(crate::specs::Printing::control_words))]
fn push_control(
    alloc: Global,
    ns: &[u8],
    control: &Control,
    out: &mut Vec<u8>,
) -> Result<(), NoMemory>
    ensures { OnOk result
        (out.new.items ≡ out.old.items ++ line_text ns.now (control_words control.now)) }
{
    push_head(ns, kind_text(control.kind), out)?;
    push_sides(alloc, control, out)?;
    out.push(b'\n')?;
    Ok(())
}

/// Appends words, each after a space, or a part of them.
fn push_words(words: &[Text], out: &mut Vec<u8>) -> Result<(), NoMemory>
    ensures { OnOk result (out.new.items ≡ out.old.items ++ spaced words.now) }
{
    for word in words {
        push_word(word.bytes(), out)?;
    }
    Ok(())
}

/// Appends the line of an ACL group, or a part of it.
fn push_acl_group(
    alloc: Global,
    ns: &[u8],
    number: u8,
    words: &[Text],
    out: &mut Vec<u8>,
) -> Result<(), NoMemory>
    ensures { OnOk result
        (out.new.items ≡ out.old.items
        ++ line_text ns.now (codes "acl_group" ∷ decimal number ∷ words.now)) }
{
    push_head(ns, b"acl_group", out)?;
    push_decimal(alloc, number, out)?;
    push_words(words, out)?;
    out.push(b'\n')?;
    Ok(())
}

/// Appends the line of a rule, or a part of it.
#[tactic(auto, unfolding(crate::specs::Printing::rule_words))]
fn push_rule(alloc: Global, ns: &[u8], rule: &ExceptRule, out: &mut Vec<u8>) -> Result<(), NoMemory>
    ensures { OnOk result
        (out.new.items ≡ out.old.items ++ line_text ns.now (rule_words rule.now)) }
{
    match rule {
        ExceptRule::PathGroup(name, member) => push_path_group(alloc, ns, name, member, out),
        ExceptRule::NumberGroup(name, member) => push_number_group(alloc, ns, name, member, out),
        ExceptRule::AddressGroup(name, member) => push_address_group(alloc, ns, name, member, out),
        ExceptRule::Aggregator(first, second) => push_aggregator(alloc, ns, first, second, out),
        ExceptRule::Control(control) => push_control(alloc, ns, control, out),
        ExceptRule::Acl(number, words) => {
            push_acl_group(alloc, ns, *number, words.as_slice(), out)
        }
    }
}

/// The line of a rule.
fn rule_text(alloc: Global, ns: &[u8], rule: &ExceptRule) -> Result<Vec<u8>, NoMemory>
    ensures { IfOk result (λ text. text.items ≡ line_text ns.now (rule_words rule.now)) }
{
    let mut made = Vec::new(alloc);
    push_rule(alloc, ns, rule, &mut made)?;
    Ok(made)
}

/// Appends the line of a rule with the namespace word in front: a group and its member, an
/// aggregator, a control, always with `from`, or an ACL group with the words of its line. After
/// want of memory `out` is as before.
pub fn print_rule(
    alloc: Global,
    ns: &Text,
    rule: &ExceptRule,
    out: &mut Vec<u8>,
) -> Result<(), NoMemory>
    ensures ok { OnOk result
        (out.new.items ≡ out.old.items ++ line_text ns.now (rule_words rule.now)) }
    ensures err { OnErr result (out.new.items ≡ out.old.items) }
{
    let text = rule_text(alloc, ns.bytes(), rule)?;
    out.extend_from_slice(&text)
}

/// Appends the lines of path groups, or a part of them.
fn push_path_groups(
    alloc: Global,
    ns: &[u8],
    groups: &[(Word, Pattern)],
    out: &mut Vec<u8>,
) -> Result<(), NoMemory>
    ensures { OnOk result (out.new.items ≡ out.old.items ++ path_groups_text ns.now groups.now) }
{
    for (name, member) in groups {
        push_path_group(alloc, ns, name, member, out)?;
    }
    Ok(())
}

/// Appends the lines of number groups, or a part of them.
fn push_number_groups(
    alloc: Global,
    ns: &[u8],
    groups: &[(Word, Range)],
    out: &mut Vec<u8>,
) -> Result<(), NoMemory>
    ensures { OnOk result (out.new.items ≡ out.old.items ++ number_groups_text ns.now groups.now) }
{
    for (name, member) in groups {
        push_number_group(alloc, ns, name, member, out)?;
    }
    Ok(())
}

/// Appends the lines of address groups, or a part of them.
fn push_address_groups(
    alloc: Global,
    ns: &[u8],
    groups: &[(Word, AddrRange)],
    out: &mut Vec<u8>,
) -> Result<(), NoMemory>
    ensures { OnOk result (out.new.items ≡ out.old.items ++ address_groups_text ns.now groups.now) }
{
    for (name, member) in groups {
        push_address_group(alloc, ns, name, member, out)?;
    }
    Ok(())
}

/// Appends the lines of aggregators, or a part of them.
fn push_aggregators(
    alloc: Global,
    ns: &[u8],
    aggregators: &[(Pattern, Word)],
    out: &mut Vec<u8>,
) -> Result<(), NoMemory>
    ensures { OnOk result
        (out.new.items ≡ out.old.items ++ aggregators_text ns.now aggregators.now) }
{
    for (first, second) in aggregators {
        push_aggregator(alloc, ns, first, second, out)?;
    }
    Ok(())
}

/// Appends the lines of controls, or a part of them.
fn push_controls(
    alloc: Global,
    ns: &[u8],
    controls: &[Control],
    out: &mut Vec<u8>,
) -> Result<(), NoMemory>
    ensures { OnOk result (out.new.items ≡ out.old.items ++ controls_text ns.now controls.now) }
{
    for control in controls {
        push_control(alloc, ns, control, out)?;
    }
    Ok(())
}

/// The lines of a namespace, without those of its ACL groups.
#[tactic(auto, unfolding(crate::specs::Printing::lists_text))]
fn lists_text(alloc: Global, ns: &Namespace) -> Result<Vec<u8>, NoMemory>
    ensures { IfOk result (λ text. text.items ≡ lists_text ns.now) }
{
    let mut made = Vec::new(alloc);
    let name = ns.name.bytes();
    push_path_groups(alloc, name, ns.groups.paths.as_slice(), &mut made)?;
    push_number_groups(alloc, name, ns.groups.numbers.as_slice(), &mut made)?;
    push_address_groups(alloc, name, ns.groups.addrs.as_slice(), &mut made)?;
    push_aggregators(alloc, name, ns.aggregators.as_slice(), &mut made)?;
    push_controls(alloc, name, ns.controls.as_slice(), &mut made)?;
    Ok(made)
}

/// Appends the printed lines of a namespace that come before those of its ACL groups: path groups,
/// number groups, address groups, aggregators and controls, each list in written order and each
/// line with the namespace word in front. After want of memory `out` is as before.
pub fn print_lists(alloc: Global, ns: &Namespace, out: &mut Vec<u8>) -> Result<(), NoMemory>
    ensures ok { OnOk result (out.new.items ≡ out.old.items ++ lists_text ns.now) }
    ensures err { OnErr result (out.new.items ≡ out.old.items) }
{
    let text = lists_text(alloc, ns)?;
    out.extend_from_slice(&text)
}

/// A law, nothing to run: the words of a printed line are read again as that line, and what is read
/// is a line that can be printed.
pub fn round_trip()
    ensures again { (delete : Bool) (name : Text) (rule : ExceptRule) → IsNamespace name
        → is_rule rule ≡ true
        → line_of (line_words (line delete name rule)) ≡ Ok (line delete name rule) }
    ensures found { (words : List Text) (line : ExceptLine) → line_of words ≡ Ok line
        → IsNamespace line.namespace × (is_rule line.rule ≡ true) }
{}

/// A law, nothing to run: the printed words of a rule are words of a line, none empty and none with
/// a byte that separates words, where the words that an ACL group keeps are so, as they are when
/// they were read from a line. So the line that joins them has these words, and it is the first
/// line of a text that begins with the printed one.
pub fn printed_words()
    ensures words { (rule : ExceptRule) → is_rule rule ≡ true → keeps_words rule ≡ true
        → list_all is_word (rule_words rule) ≡ true }
    ensures listed { (rule : ExceptRule) → is_rule rule ≡ true → is_listed rule ≡ true
        → list_all is_word (rule_words rule) ≡ true }
    ensures kept { (words : List Text) (line : ExceptLine) → list_all is_word words ≡ true
        → line_of words ≡ Ok line
        → keeps_words line.rule ≡ true }
    ensures joined { (delete : Bool) (name : Text) (rule : ExceptRule) → IsNamespace name
        → is_rule rule ≡ true
        → keeps_words rule ≡ true
        → words_of (joined (line_words (line delete name rule)))
        ≡ line_words (line delete name rule) }
    ensures text { (name : Text) (rule : ExceptRule) (rest : Text) → IsNamespace name
        → is_rule rule ≡ true
        → keeps_words rule ≡ true
        → lines_of (line_text name (rule_words rule) ++ rest)
        ≡ joined (line_words (line false name rule)) ∷ lines_of rest }
{}
