//! The words of `CONFIG` lines: the slot that a word sets, and the mode that it gives.
ghost use Rattle.std.specs.Prelude.{◌≡◌, ◌++◌};
ghost use Rattle.std.specs.List.{find, list_any};
ghost use Rattle.tm_rules.specs.Types.{Mode, all_slots, modes};
ghost use Rattle.tm_word.specs.Prelude.{begins, texts_equal};
ghost use Rattle.tm_profile.specs.Slots.{function_text, slot_text, mode_word};
ghost use Rattle.tm_profile.specs.Reading.{word_mode, begins_mode, begins_slot, begins_some_slot, slot_word, slot_in, slot_of};

use crate::words::{begins_joined, is_joined};
use tm_types::policy::{Function, Mode, SlotName};

/// All modes.
fn modes() -> &'static [Mode]
    ensures { result.now ≡ modes }
{
    &[
        Mode::Disabled,
        Mode::Learning,
        Mode::Permissive,
        Mode::Enforcing,
    ]
}

/// The first of these modes whose word this is.
fn mode_in(modes: &[Mode], word: &[u8]) -> Option<Mode>
    ensures { result ≡ find (λ mode. texts_equal word.now (mode_word mode)) modes.now }
{
    for mode in modes {
        if is_joined(word, b"mode=", mode.text().as_bytes()) {
            return Some(*mode);
        }
    }
    None
}

/// The mode whose word this is.
pub(crate) fn word_mode(word: &[u8]) -> Option<Mode>
    ensures { result ≡ word_mode word.now }
{
    mode_in(modes(), word)
}

/// Whether the word of one of these modes begins so.
fn begins_mode_in(modes: &[Mode], word: &[u8]) -> bool
    ensures { result ≡ list_any (λ mode. begins word.now (mode_word mode)) modes.now }
{
    for mode in modes {
        if begins_joined(word, b"mode=", mode.text().as_bytes()) {
            return true;
        }
    }
    false
}

/// Whether the word of a mode begins so.
pub(crate) fn begins_mode(word: &[u8]) -> bool
    ensures { result ≡ begins_mode word.now }
{
    begins_mode_in(modes(), word)
}

/// The word of a function: its category's, and then its own.
#[tactic(auto, unfolding(crate::specs::Slots::function_text))]
fn function_text(function: Function) -> &'static [u8]
    ensures { result.now ≡ function_text function }
{
    match function {
        Function::Execute => b"CONFIG::file::execute",
        Function::Open => b"CONFIG::file::open",
        Function::Create => b"CONFIG::file::create",
        Function::Unlink => b"CONFIG::file::unlink",
        Function::Getattr => b"CONFIG::file::getattr",
        Function::Mkdir => b"CONFIG::file::mkdir",
        Function::Rmdir => b"CONFIG::file::rmdir",
        Function::Mkfifo => b"CONFIG::file::mkfifo",
        Function::Mksock => b"CONFIG::file::mksock",
        Function::Truncate => b"CONFIG::file::truncate",
        Function::Symlink => b"CONFIG::file::symlink",
        Function::Mkblock => b"CONFIG::file::mkblock",
        Function::Mkchar => b"CONFIG::file::mkchar",
        Function::Link => b"CONFIG::file::link",
        Function::Rename => b"CONFIG::file::rename",
        Function::Chmod => b"CONFIG::file::chmod",
        Function::Chown => b"CONFIG::file::chown",
        Function::Chgrp => b"CONFIG::file::chgrp",
        Function::Ioctl => b"CONFIG::file::ioctl",
        Function::Chroot => b"CONFIG::file::chroot",
        Function::Mount => b"CONFIG::file::mount",
        Function::Unmount => b"CONFIG::file::unmount",
        Function::PivotRoot => b"CONFIG::file::pivot_root",
        Function::InetStreamBind => b"CONFIG::network::inet_stream_bind",
        Function::InetStreamListen => b"CONFIG::network::inet_stream_listen",
        Function::InetStreamConnect => b"CONFIG::network::inet_stream_connect",
        Function::InetDgramBind => b"CONFIG::network::inet_dgram_bind",
        Function::InetDgramSend => b"CONFIG::network::inet_dgram_send",
        Function::InetRawBind => b"CONFIG::network::inet_raw_bind",
        Function::InetRawSend => b"CONFIG::network::inet_raw_send",
        Function::UnixStreamBind => b"CONFIG::network::unix_stream_bind",
        Function::UnixStreamListen => b"CONFIG::network::unix_stream_listen",
        Function::UnixStreamConnect => b"CONFIG::network::unix_stream_connect",
        Function::UnixDgramBind => b"CONFIG::network::unix_dgram_bind",
        Function::UnixDgramSend => b"CONFIG::network::unix_dgram_send",
        Function::UnixSeqpacketBind => b"CONFIG::network::unix_seqpacket_bind",
        Function::UnixSeqpacketListen => b"CONFIG::network::unix_seqpacket_listen",
        Function::UnixSeqpacketConnect => b"CONFIG::network::unix_seqpacket_connect",
        Function::Env => b"CONFIG::misc::env",
    }
}

/// The word of a slot, up to its `=`.
#[tactic(auto, unfolding(crate::specs::Slots::slot_text))]
pub(crate) fn slot_text(slot: SlotName) -> &'static [u8]
    ensures { result.now ≡ slot_text slot }
{
    match slot {
        SlotName::File => b"CONFIG::file",
        SlotName::Network => b"CONFIG::network",
        SlotName::Misc => b"CONFIG::misc",
        SlotName::One(function) => function_text(function),
    }
}

/// All slots, by their rank.
fn all_slots() -> &'static [SlotName]
    ensures { result.now ≡ all_slots }
{
    &[
        SlotName::File,
        SlotName::Network,
        SlotName::Misc,
        SlotName::One(Function::Execute),
        SlotName::One(Function::Open),
        SlotName::One(Function::Create),
        SlotName::One(Function::Unlink),
        SlotName::One(Function::Getattr),
        SlotName::One(Function::Mkdir),
        SlotName::One(Function::Rmdir),
        SlotName::One(Function::Mkfifo),
        SlotName::One(Function::Mksock),
        SlotName::One(Function::Truncate),
        SlotName::One(Function::Symlink),
        SlotName::One(Function::Mkblock),
        SlotName::One(Function::Mkchar),
        SlotName::One(Function::Link),
        SlotName::One(Function::Rename),
        SlotName::One(Function::Chmod),
        SlotName::One(Function::Chown),
        SlotName::One(Function::Chgrp),
        SlotName::One(Function::Ioctl),
        SlotName::One(Function::Chroot),
        SlotName::One(Function::Mount),
        SlotName::One(Function::Unmount),
        SlotName::One(Function::PivotRoot),
        SlotName::One(Function::InetStreamBind),
        SlotName::One(Function::InetStreamListen),
        SlotName::One(Function::InetStreamConnect),
        SlotName::One(Function::InetDgramBind),
        SlotName::One(Function::InetDgramSend),
        SlotName::One(Function::InetRawBind),
        SlotName::One(Function::InetRawSend),
        SlotName::One(Function::UnixStreamBind),
        SlotName::One(Function::UnixStreamListen),
        SlotName::One(Function::UnixStreamConnect),
        SlotName::One(Function::UnixDgramBind),
        SlotName::One(Function::UnixDgramSend),
        SlotName::One(Function::UnixSeqpacketBind),
        SlotName::One(Function::UnixSeqpacketListen),
        SlotName::One(Function::UnixSeqpacketConnect),
        SlotName::One(Function::Env),
    ]
}

/// What a word sets of this slot.
fn slot_word(slot: SlotName, word: &[u8]) -> Option<(SlotName, bool)>
    ensures { result ≡ slot_word slot word.now }
{
    let text = slot_text(slot);
    if is_joined(word, text, b"={") {
        return Some((slot, true));
    }
    if is_joined(word, text, b"=use_default") {
        return Some((slot, false));
    }
    None
}

/// What a word sets of the first of these slots that it speaks of.
fn slot_in(slots: &[SlotName], word: &[u8]) -> Option<(SlotName, bool)>
    ensures { result ≡ slot_in slots.now word.now }
{
    for slot in slots {
        if let Some(found) = slot_word(*slot, word) {
            return Some(found);
        }
    }
    None
}

/// The slot that a word sets, and whether a setting follows; false is `use_default`.
#[tactic(auto, unfolding(crate::specs::Reading::slot_of))]
pub(crate) fn slot_of(word: &[u8]) -> Option<(SlotName, bool)>
    ensures { result ≡ slot_of word.now }
{
    slot_in(all_slots(), word)
}

/// Whether a word of this slot begins so.
fn begins_slot(word: &[u8], slot: SlotName) -> bool
    ensures { result ≡ begins_slot word.now slot }
{
    begins_joined(word, slot_text(slot), b"={")
        || begins_joined(word, slot_text(slot), b"=use_default")
}

/// Whether a word of one of these slots begins so.
fn begins_any(slots: &[SlotName], word: &[u8]) -> bool
    ensures { result ≡ list_any (begins_slot word.now) slots.now }
{
    for slot in slots {
        if begins_slot(word, *slot) {
            return true;
        }
    }
    false
}

/// Whether a word of some slot begins so.
#[tactic(auto, unfolding(crate::specs::Reading::begins_some_slot))]
pub(crate) fn begins_some_slot(word: &[u8]) -> bool
    ensures { result ≡ begins_some_slot word.now }
{
    begins_any(all_slots(), word)
}
