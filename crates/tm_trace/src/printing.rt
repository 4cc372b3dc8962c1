//! Printing requests and traces.
ghost use Rattle.std.specs.Prelude.{◌≡◌, ◌++◌, [], ◌∷◌, nat_lt, if◌then◌else◌, map, IfOk, OnOk, OnErr};
ghost use Rattle.std.specs.List.{flat_map};
ghost use Rattle.std.specs.Fmt.{decimal};
ghost use Rattle.std.specs.Option.{option_copied};
ghost use Rattle.tm_word.specs.Prelude.{joined};
ghost use Rattle.tm_rules.specs.Types.{Item};
ghost use Rattle.tm_rules.specs.Prelude.{permission};
ghost use Rattle.tm_line.specs.Lines.{spaced};
ghost use Rattle.tm_entry.specs.Attributes.{attr_text};
ghost use Rattle.tm_trace.specs.Named.{named_text};
ghost use Rattle.tm_trace.specs.Printing.{quoted_text, words_if, real_path_text, environment_text, target_text, base_of, stat_text, attributes_text, request_text, ids_words, item_words, tree_words, line_text, tree_lines, trace_text};

use std::alloc::Global;
use tm_entry::cond::{kind_text, push_attr};
use tm_entry::print_acl;
use tm_line::print_domain;
use tm_list::{Copied, NoMemory};
use tm_number::{Base, Number, write_decimal, write_number};
use tm_types::entry::{Attr, Perms, StatField};
use tm_types::request::{Ids, Item, Request, Stat, Trace, Tree};
use tm_word::{Word, write_word};

// The permission at a place of its row; a place that no row has has none.
fn permission(place: u8) -> u16
    ensures { result ≡ (if nat_lt place 16 then permission place else 0) }
{
    if place < 16 { 1 << place } else { 0 }
}

/// Appends the line of a request, an ACL line with its one permission, whose words are joined by
/// single spaces. After want of memory `out` is as before.
#[tactic(auto, using(crate::proofs::PrintLaws::one_permission), unfolding(crate::specs::Printing::request_words))]
pub fn print_request(alloc: Global, request: &Request, out: &mut Vec<u8>) -> Result<(), NoMemory>
    ensures ok { OnOk result (out.new.items ≡ out.old.items ++ request_text request.now) }
    ensures err { OnErr result (out.new.items ≡ out.old.items) }
{
    let perms = Perms {
        bits: permission(request.perm()),
    };
    print_acl(alloc, request.args(), perms, out)
}

// Appends a word in double quotes.
fn push_quoted(alloc: Global, word: &Word, out: &mut Vec<u8>) -> Result<(), NoMemory>
    ensures { OnOk result (out.new.items ≡ out.old.items ++ quoted_text word.now) }
{
    out.push(b'"')?;
    write_word(alloc, word, out)?;
    out.extend_from_slice(b"\"")
}

// Appends a space, an attribute, `=` and a word.
fn push_attribute(
    alloc: Global,
    attr: &Attr,
    word: &Word,
    out: &mut Vec<u8>,
) -> Result<(), NoMemory>
    ensures { OnOk result
        (out.new.items ≡ out.old.items ++ 32 ∷ (attr_text attr.now ++ 61 ∷ quoted_text word.now)) }
{
    out.push(b' ')?;
    push_attr(alloc, attr, out)?;
    out.push(b'=')?;
    push_quoted(alloc, word, out)
}

// Appends the real path of an execute, where it is there.
fn push_real_path(alloc: Global, path: Option<&Word>, out: &mut Vec<u8>) -> Result<(), NoMemory>
    ensures { OnOk result (out.new.items
        ≡ out.old.items ++ spaced (words_if real_path_text (option_copied path.entry))) }
{
    match path {
        None => Ok(()),
        Some(word) => push_attribute(alloc, &Attr::RealPath, word, out),
    }
}

// Appends a space, a name, `=` and a word.
fn push_named(alloc: Global, name: &[u8], word: &Word, out: &mut Vec<u8>) -> Result<(), NoMemory>
    ensures { OnOk result (out.new.items ≡ out.old.items ++ 32 ∷ named_text name.now word.now) }
{
    out.push(b' ')?;
    out.extend_from_slice(name)?;
    out.push(b'=')?;
    push_quoted(alloc, word, out)
}

// Appends words under one name, such as arguments, which are written without their number.
fn push_words(alloc: Global, name: &[u8], words: &[Word], out: &mut Vec<u8>) -> Result<(), NoMemory>
    ensures { OnOk result
        (out.new.items ≡ out.old.items ++ spaced (map (named_text name.now) words.now)) }
{
    for word in words {
        push_named(alloc, name, word, out)?;
    }
    Ok(())
}

// Appends a name of the environment and its value.
fn push_variable(
    alloc: Global,
    name: &Word,
    value: &Word,
    out: &mut Vec<u8>,
) -> Result<(), NoMemory>
    ensures { OnOk result
        (out.new.items ≡ out.old.items ++ 32 ∷ environment_text (name.now, value.now)) }
{
    let attr = Attr::Envp(name.copy(alloc)?);
    push_attribute(alloc, &attr, value, out)
}

// Appends an environment.
fn push_environment(alloc: Global, envp: &[(Word, Word)], out: &mut Vec<u8>) -> Result<(), NoMemory>
    ensures { OnOk result
        (out.new.items ≡ out.old.items ++ spaced (map environment_text envp.now)) }
{
    for (name, value) in envp {
        push_variable(alloc, name, value, out)?;
    }
    Ok(())
}

// Appends the target of a symlink, where it is there.
fn push_target(alloc: Global, target: Option<&Word>, out: &mut Vec<u8>) -> Result<(), NoMemory>
    ensures { OnOk result (out.new.items
        ≡ out.old.items ++ spaced (words_if target_text (option_copied target.entry))) }
{
    match target {
        None => Ok(()),
        Some(word) => push_attribute(alloc, &Attr::Target, word, out),
    }
}

// Permission bits are octal, every other number is decimal.
fn base_of(field: StatField) -> Base
    ensures { result ≡ base_of field }
{
    match field {
        StatField::Perm => Base::Octal,
        _ => Base::Decimal,
    }
}

// Appends an attribute of a file.
fn push_stat(alloc: Global, stat: Stat, out: &mut Vec<u8>) -> Result<(), NoMemory>
    ensures { OnOk result (out.new.items ≡ out.old.items ++ 32 ∷ stat_text stat) }
{
    out.push(b' ')?;
    match stat {
        Stat::Number(place, field, value) => {
            push_attr(alloc, &Attr::Stat(place, field), out)?;
            out.push(b'=')?;
            let base = base_of(field);
            write_number(alloc, &Number { value, base }, out)
        }
        Stat::Kind(place, kind) => {
            push_attr(alloc, &Attr::Kind(place), out)?;
            out.push(b'=')?;
            out.extend_from_slice(kind_text(kind))
        }
    }
}

// Appends attributes of files.
fn push_stats(alloc: Global, stats: &[Stat], out: &mut Vec<u8>) -> Result<(), NoMemory>
    ensures { OnOk result (out.new.items ≡ out.old.items ++ spaced (map stat_text stats.now)) }
{
    for stat in stats {
        push_stat(alloc, *stat, out)?;
    }
    Ok(())
}

/// Room for the attributes of most requests, so that their text is made without moving.
const ATTRIBUTES_ROOM: usize = 512;

// All attributes of a request, each after a space.
#[tactic(auto, unfolding(crate::specs::Printing::attribute_words))]
fn attributes_text(alloc: Global, request: &Request) -> Result<Vec<u8>, NoMemory>
    ensures { IfOk result (λ text. text.items ≡ attributes_text request.now) }
{
    let mut text = Vec::with_capacity(alloc, ATTRIBUTES_ROOM)?;
    push_real_path(alloc, request.real_path(), &mut text)?;
    push_words(alloc, b"exec.argv", request.argv(), &mut text)?;
    push_environment(alloc, request.envp(), &mut text)?;
    push_target(alloc, request.target(), &mut text)?;
    push_stats(alloc, request.stats(), &mut text)?;
    Ok(text)
}

/// Appends the attributes of a request, each after a space: the real path, the arguments, the
/// environment, the target of a symlink, and those of files; numbers in decimal, permission bits in
/// octal. After want of memory `out` is as before.
pub fn print_attributes(alloc: Global, request: &Request, out: &mut Vec<u8>) -> Result<(), NoMemory>
    ensures ok { OnOk result (out.new.items ≡ out.old.items ++ attributes_text request.now) }
    ensures err { OnErr result (out.new.items ≡ out.old.items) }
{
    let text = attributes_text(alloc, request)?;
    out.extend_from_slice(&text)
}

// Appends a number after a space.
fn push_number(alloc: Global, n: u32, out: &mut Vec<u8>) -> Result<(), NoMemory>
    ensures { OnOk result (out.new.items ≡ out.old.items ++ 32 ∷ decimal n) }
{
    out.push(b' ')?;
    write_decimal(alloc, u64::from(n), out)
}

// Appends four numbers, each after a space.
fn push_four(
    alloc: Global,
    first: u32,
    second: u32,
    third: u32,
    fourth: u32,
    out: &mut Vec<u8>,
) -> Result<(), NoMemory>
    ensures { OnOk result (out.new.items ≡ out.old.items ++ spaced
        (decimal first ∷ decimal second ∷ decimal third ∷ decimal fourth ∷ [])) }
{
    push_number(alloc, first, out)?;
    push_number(alloc, second, out)?;
    push_number(alloc, third, out)?;
    push_number(alloc, fourth, out)
}

// Appends the eight ids, each after a space.
#[tactic(auto, using(crate::proofs::PrintLaws::four_more))]
fn push_ids(alloc: Global, ids: Ids, out: &mut Vec<u8>) -> Result<(), NoMemory>
    ensures { OnOk result (out.new.items ≡ out.old.items ++ spaced (ids_words ids)) }
{
    push_four(alloc, ids.uid, ids.euid, ids.suid, ids.fsuid, out)?;
    push_four(alloc, ids.gid, ids.egid, ids.sgid, ids.fsgid, out)
}

// The line of ids.
#[tactic(auto, using(tm_line::proofs::JoinLaws::joined_is), unfolding(crate::specs::Printing::item_words))]
fn ids_text(alloc: Global, pid: u32, ids: Ids) -> Result<Vec<u8>, NoMemory>
    ensures { IfOk result (λ text. text.items ≡ joined (item_words (Item.Ids pid ids))) }
{
    let mut text = Vec::from_slice(alloc, b"ids")?;
    push_number(alloc, pid, &mut text)?;
    push_ids(alloc, ids, &mut text)?;
    Ok(text)
}

// The line of a fork.
#[tactic(auto, using(tm_line::proofs::JoinLaws::joined_is), unfolding(crate::specs::Printing::item_words))]
fn fork_text(alloc: Global, pid: u32, child: u32) -> Result<Vec<u8>, NoMemory>
    ensures { IfOk result (λ text. text.items ≡ joined (item_words (Item.Fork pid child))) }
{
    let mut text = Vec::from_slice(alloc, b"fork")?;
    push_number(alloc, pid, &mut text)?;
    push_number(alloc, child, &mut text)?;
    Ok(text)
}

// The line of a request and its attributes.
#[tactic(auto, using(crate::proofs::PrintLaws::do_joined), unfolding(crate::specs::Printing::item_words))]
fn do_text(alloc: Global, pid: u32, request: &Request) -> Result<Vec<u8>, NoMemory>
    ensures { IfOk result (λ text. text.items ≡ joined (item_words (Item.Do pid request.now))) }
{
    let mut text = Vec::from_slice(alloc, b"do")?;
    push_number(alloc, pid, &mut text)?;
    text.push(b' ')?;
    print_request(alloc, request, &mut text)?;
    print_attributes(alloc, request, &mut text)?;
    Ok(text)
}

// The line of a record.
fn item_text(alloc: Global, item: &Item) -> Result<Vec<u8>, NoMemory>
    ensures { IfOk result (λ text. text.items ≡ joined (item_words item.now)) }
{
    match item {
        Item::Ids(pid, ids) => ids_text(alloc, *pid, *ids),
        Item::Fork(pid, child) => fork_text(alloc, *pid, *child),
        Item::Do(pid, request) => do_text(alloc, *pid, request),
    }
}

// The first line of a tree.
#[tactic(auto, using(tm_line::proofs::JoinLaws::joined_is), unfolding(crate::specs::Printing::tree_words))]
fn tree_text(alloc: Global, tree: &Tree) -> Result<Vec<u8>, NoMemory>
    ensures { IfOk result (λ text. text.items ≡ joined (tree_words tree.now)) }
{
    let mut text = Vec::from_slice(alloc, b"tree")?;
    push_number(alloc, tree.pid, &mut text)?;
    print_domain(alloc, &tree.start, &mut text)?;
    Ok(text)
}

// Appends the lines of records.
fn push_items(alloc: Global, items: &[Item], out: &mut Vec<u8>) -> Result<(), NoMemory>
    ensures { OnOk result
        (out.new.items ≡ out.old.items ++ flat_map line_text (map item_words items.now)) }
{
    for item in items {
        let text = item_text(alloc, item)?;
        out.extend_from_slice(&text)?;
        out.push(b'\n')?;
    }
    Ok(())
}

// Appends the lines of a tree.
fn push_tree(alloc: Global, tree: &Tree, out: &mut Vec<u8>) -> Result<(), NoMemory>
    ensures { OnOk result
        (out.new.items ≡ out.old.items ++ flat_map line_text (tree_lines tree.now)) }
{
    let text = tree_text(alloc, tree)?;
    out.extend_from_slice(&text)?;
    out.push(b'\n')?;
    push_items(alloc, tree.records.as_slice(), out)
}

// All lines.
#[tactic(auto, unfolding(crate::specs::Printing::trace_text))]
fn trace_text(alloc: Global, trees: &[Tree]) -> Result<Vec<u8>, NoMemory>
    ensures { IfOk result (λ text. text.items ≡ trace_text trees.now) }
{
    let mut text = Vec::new(alloc);
    for tree in trees {
        push_tree(alloc, tree, &mut text)?;
    }
    Ok(text)
}

/// Appends the lines of a trace, each ended by byte 10, tree by tree and in the order of their
/// records. After want of memory `out` is as before.
pub fn print_trace(alloc: Global, trace: &Trace, out: &mut Vec<u8>) -> Result<(), NoMemory>
    ensures ok { OnOk result (out.new.items ≡ out.old.items ++ trace_text trace.now) }
    ensures err { OnErr result (out.new.items ≡ out.old.items) }
{
    let text = trace_text(alloc, trace.as_slice())?;
    out.extend_from_slice(&text)
}
