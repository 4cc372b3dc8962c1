//! Printing profiles.
ghost use Rattle.std.specs.Prelude.{◌≡◌, ◌∷◌, [], ◌++◌, ℕ, List, Some, Ok, true, codes, IfOk, OnOk, OnErr};
ghost use Rattle.std.specs.List.{flat_map, list_all};
ghost use Rattle.std.specs.Fmt.{decimal};
ghost use Rattle.tm_rules.specs.Types.{Namespace, Profile, ProfileLine};
ghost use Rattle.tm_word.specs.Prelude.{Text, is_word, lines_of};
ghost use Rattle.tm_rules.specs.Prelude.{profile_line};
ghost use Rattle.tm_line.specs.Lines.{spaced};
ghost use Rattle.tm_line.specs.Namespaces.{line_text};
ghost use Rattle.tm_profile.specs.Slots.{mode_word};
ghost use Rattle.tm_profile.specs.Printing.{headed, grant_text, reject_text, setting_words, audit_text, learning_text, limit_words, comment_words, preference_words, config_words, slot_line, profile_text, profiles_text};
ghost use Rattle.tm_profile.specs.Reading.{line_of};
ghost use Rattle.tm_profile.specs.Texts.{IsNamespaceWord, IsWritten, lines_into};

use crate::slots::slot_text;
use std::alloc::Global;
use tm_list::NoMemory;
use tm_number::write_decimal;
use tm_types::policy::{Config, Mode, Profile, Profiles, SlotName};
use tm_word::Text;

/// The word of the log of grants.
fn grant_text(log: bool) -> &'static [u8]
    ensures { result.now ≡ grant_text log }
{
    if log {
        b"grant_log=yes"
    } else {
        b"grant_log=no"
    }
}

/// The word of the log of rejections.
fn reject_text(log: bool) -> &'static [u8]
    ensures { result.now ≡ reject_text log }
{
    if log {
        b"reject_log=yes"
    } else {
        b"reject_log=no"
    }
}

/// Appends the namespace word and, after a space, `N-` and a word; or a part of it.
fn push_head(
    alloc: Global,
    ns: &[u8],
    number: u8,
    word: &[u8],
    out: &mut Vec<u8>,
) -> Result<(), NoMemory>
    ensures { OnOk result
        (out.new.items ≡ out.old.items ++ (ns.now ++ 32 ∷ headed number word.now)) }
{
    out.extend_from_slice(ns)?;
    out.push(b' ')?;
    write_decimal(alloc, u64::from(number), out)?;
    out.push(b'-')?;
    out.extend_from_slice(word)
}

/// Appends a word after a space, or a part of it.
fn push_word(word: &[u8], out: &mut Vec<u8>) -> Result<(), NoMemory>
    ensures { OnOk result (out.new.items ≡ out.old.items ++ 32 ∷ word.now) }
{
    out.push(b' ')?;
    out.extend_from_slice(word)
}

/// Appends the word of a mode after a space, or a part of it.
fn push_mode(mode: Mode, out: &mut Vec<u8>) -> Result<(), NoMemory>
    ensures { OnOk result (out.new.items ≡ out.old.items ++ 32 ∷ mode_word mode) }
{
    push_word(b"mode=", out)?;
    out.extend_from_slice(mode.text().as_bytes())
}

/// Appends a limit with its key after a space, or a part of it.
fn push_limit(alloc: Global, word: &[u8], limit: u32, out: &mut Vec<u8>) -> Result<(), NoMemory>
    ensures { OnOk result (out.new.items ≡ out.old.items ++ 32 ∷ (word.now ++ decimal limit)) }
{
    push_word(word, out)?;
    write_decimal(alloc, u64::from(limit), out)
}

/// Appends the limit of audit logs after a space, or a part of it.
#[tactic(auto, unfolding(crate::specs::Printing::audit_text))]
fn push_audit(alloc: Global, limit: u32, out: &mut Vec<u8>) -> Result<(), NoMemory>
    ensures { OnOk result (out.new.items ≡ out.old.items ++ 32 ∷ audit_text limit) }
{
    push_limit(alloc, b"max_audit_log=", limit, out)
}

/// Appends the limit of learned entries after a space, or a part of it.
#[tactic(auto, unfolding(crate::specs::Printing::learning_text))]
fn push_learning(alloc: Global, limit: u32, out: &mut Vec<u8>) -> Result<(), NoMemory>
    ensures { OnOk result (out.new.items ≡ out.old.items ++ 32 ∷ learning_text limit) }
{
    push_limit(alloc, b"max_learning_entry=", limit, out)
}

/// Appends the words of both limits and the line's end, or a part of it.
fn push_limits(alloc: Global, audit: u32, learning: u32, out: &mut Vec<u8>) -> Result<(), NoMemory>
    ensures { OnOk result
        (out.new.items ≡ out.old.items ++ (spaced (limit_words audit learning) ++ 10 ∷ [])) }
{
    push_audit(alloc, audit, out)?;
    push_learning(alloc, learning, out)?;
    out.extend_from_slice(b" }\n")
}

/// Appends the words of a setting and the line's end, or a part of it.
fn push_setting(config: Config, out: &mut Vec<u8>) -> Result<(), NoMemory>
    ensures { OnOk result
        (out.new.items ≡ out.old.items ++ (spaced (setting_words config) ++ 10 ∷ [])) }
{
    push_mode(config.mode, out)?;
    push_word(grant_text(config.logs.grant), out)?;
    push_word(reject_text(config.logs.reject), out)?;
    out.extend_from_slice(b" }\n")
}

/// Appends the line of the comment, or a part of it.
fn push_comment(
    alloc: Global,
    ns: &[u8],
    number: u8,
    comment: &[u8],
    out: &mut Vec<u8>,
) -> Result<(), NoMemory>
    ensures { OnOk result
        (out.new.items ≡ out.old.items ++ line_text ns.now (comment_words number comment.now)) }
{
    push_head(alloc, ns, number, b"COMMENT=", out)?;
    out.extend_from_slice(comment)?;
    out.push(b'\n')?;
    Ok(())
}

/// Appends the line of the limits, or a part of it.
fn push_preference(
    alloc: Global,
    ns: &[u8],
    number: u8,
    audit: u32,
    learning: u32,
    out: &mut Vec<u8>,
) -> Result<(), NoMemory>
    ensures { OnOk result
        (out.new.items ≡ out.old.items
        ++ line_text ns.now (preference_words number audit learning)) }
{
    push_head(alloc, ns, number, b"PREFERENCE={", out)?;
    push_limits(alloc, audit, learning, out)
}

/// Appends the line of a configuration, or a part of it.
fn push_config(
    alloc: Global,
    ns: &[u8],
    number: u8,
    word: &[u8],
    config: Config,
    out: &mut Vec<u8>,
) -> Result<(), NoMemory>
    ensures { OnOk result
        (out.new.items ≡ out.old.items ++ line_text ns.now (config_words number word.now config)) }
{
    push_head(alloc, ns, number, word, out)?;
    out.extend_from_slice(b"={")?;
    push_setting(config, out)
}

/// Appends the lines of slots, or a part of them.
fn push_slots(
    alloc: Global,
    ns: &[u8],
    number: u8,
    slots: &[(SlotName, Config)],
    out: &mut Vec<u8>,
) -> Result<(), NoMemory>
    ensures { OnOk result
        (out.new.items ≡ out.old.items ++ flat_map (slot_line ns.now number) slots.now) }
{
    for (slot, config) in slots {
        push_config(alloc, ns, number, slot_text(*slot), *config, out)?;
    }
    Ok(())
}

/// Appends the lines of a profile, or a part of them.
#[tactic(auto, unfolding(crate::specs::Printing::profile_text))]
fn push_profile(
    alloc: Global,
    ns: &[u8],
    number: u8,
    profile: &Profile,
    out: &mut Vec<u8>,
) -> Result<(), NoMemory>
    ensures { OnOk result
        (out.new.items ≡ out.old.items ++ profile_text ns.now (number, profile.now)) }
{
    push_comment(alloc, ns, number, profile.comment.bytes(), out)?;
    push_preference(
        alloc,
        ns,
        number,
        profile.max_audit_log,
        profile.max_learning_entry,
        out,
    )?;
    push_config(alloc, ns, number, b"CONFIG", profile.config, out)?;
    push_slots(alloc, ns, number, profile.slots.as_slice(), out)
}

/// Appends the lines of these profiles, or a part of them.
fn push_all(
    alloc: Global,
    ns: &[u8],
    profiles: &[(u8, Profile)],
    out: &mut Vec<u8>,
) -> Result<(), NoMemory>
    ensures { OnOk result
        (out.new.items ≡ out.old.items ++ flat_map (profile_text ns.now) profiles.now) }
{
    for (number, profile) in profiles {
        push_profile(alloc, ns, *number, profile, out)?;
    }
    Ok(())
}

/// The text of a namespace's profiles.
#[tactic(auto, unfolding(crate::specs::Printing::profiles_text))]
fn profiles_text(alloc: Global, ns: &[u8], profiles: &[(u8, Profile)]) -> Result<Vec<u8>, NoMemory>
    ensures { IfOk result (λ text. text.items ≡ profiles_text ns.now profiles.now) }
{
    let mut made = Vec::new(alloc);
    match profiles {
        [] => Ok(made),
        [_, ..] => {
            made.extend_from_slice(ns)?;
            made.extend_from_slice(b" PROFILE_VERSION=20150505\n")?;
            push_all(alloc, ns, profiles, &mut made)?;
            Ok(made)
        }
    }
}

/// Appends the printed text of a namespace's profiles: `PROFILE_VERSION=20150505`, then for each
/// profile by its number the lines `COMMENT`, `PREFERENCE` and `CONFIG`, and those of the
/// categories and functions that aren't `use_default`, in their order. Each line begins with the
/// namespace word. Nothing is printed where there is no profile. After want of memory `out` is as
/// before.
pub fn print_profiles(
    alloc: Global,
    ns: &Text,
    profiles: &Profiles,
    out: &mut Vec<u8>,
) -> Result<(), NoMemory>
    ensures ok { OnOk result (out.new.items ≡ out.old.items ++ profiles_text ns.now profiles.now) }
    ensures err { OnErr result (out.new.items ≡ out.old.items) }
{
    let text = profiles_text(alloc, ns.bytes(), profiles.as_slice())?;
    out.extend_from_slice(&text)
}

/// A law, nothing to run: the printed text of profiles, read line by line into a namespace without
/// profiles, gives these profiles;
/// and a line that was read from words keeps profiles that a text can write.
pub fn round_trip()
    ensures again { (ns : Namespace) (profiles : List (ℕ × Profile)) → IsNamespaceWord ns.name
        → ns.profiles ≡ []
        → IsWritten profiles
        → lines_into (lines_of (profiles_text ns.name profiles)) ns
        ≡ Some (record ns { profiles = profiles }) }
    ensures kept { (words : List Text) (line : ProfileLine) (ns : Namespace)
        → list_all is_word words ≡ true
        → line_of words ≡ Ok line → IsWritten ns.profiles
        → IsWritten (profile_line line.effect ns).profiles }
{}
