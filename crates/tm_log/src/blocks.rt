//! The blocks `path1={ .. }`, `path1.parent={ .. }`, `path2={ .. }` and `path2.parent={ .. }` of a
//! header.
ghost use Rattle.std.specs.Prelude.{◌≡◌, ◌++◌, OnOk};
ghost use Rattle.tm_word.specs.Prelude.{GivesNow};
ghost use Rattle.tm_line.specs.Lines.{line_cause};
ghost use Rattle.tm_log.specs.Blocks.{long_at, perm_text, perm_at, type_text, type_at, numbers_at, device_at, owner_at, file_at, folder_at, file_block, folder_block, found_at, owner_stats, device_stats, kind_stats, folder_stats, file_stats, found_stats};

use crate::steps::{number_at, stands};
use tm_cond::kind_word;
use tm_list::NoMemory;
use tm_number::{Base, read_number};
use tm_trace::only_at;
use tm_types::entry::{FileKindWord, LineKind, StatField, StatPlace};
use tm_types::request::Stat;
use tm_types::step::LineFault;
use tm_word::{Text, after, bytes_equal};

/// The owner and the inode of a file.
#[derive(Clone, Copy)]
pub struct Owner {
    pub uid: u64,
    pub gid: u64,
    pub ino: u64,
}

/// A device as its numbers.
#[derive(Clone, Copy)]
pub struct Device {
    pub major: u64,
    pub minor: u64,
}

/// What the kernel tells of a file: its owner, inode, file system and permissions, its type where
/// it has one of the known, and the device that it stands for.
#[derive(Clone, Copy)]
pub struct FileNumbers {
    pub owner: Owner,
    pub home: Device,
    pub perm: u64,
    pub kind: Option<FileKindWord>,
    pub device: Option<Device>,
}

/// What the kernel tells of a folder.
#[derive(Clone, Copy)]
pub struct FolderNumbers {
    pub owner: Owner,
    pub perm: u64,
}

/// What the kernel tells of a name of a request: its file and the folder that it is in, where they
/// are there.
#[derive(Clone, Copy)]
pub struct Found {
    pub file: Option<FileNumbers>,
    pub folder: Option<FolderNumbers>,
}

// A plain number below 2^64.
fn long_at<'a>(front: &[u8], words: &'a [Text]) -> Result<(u64, &'a [Text]), LineFault>
    ensures { GivesNow line_cause (λ x. (x.0, x.1.now)) result (long_at front.now words.now) }
{
    number_at(front, 18_446_744_073_709_551_616, words)
}

// An octal number.
#[tactic(auto, unfolding(crate::specs::Blocks::perm_text))]
fn perm_text(text: &[u8]) -> Result<u64, LineFault>
    ensures { GivesNow line_cause (λ n. n) result (perm_text text.now) }
{
    match read_number(text) {
        Ok(number) => match number.base {
            Base::Octal => Ok(number.value),
            _ => Err(LineFault::Kind(LineKind::Number)),
        },
        Err(_) => Err(LineFault::Kind(LineKind::Number)),
    }
}

// `perm=PERM`.
fn perm_at(words: &[Text]) -> Result<(u64, &[Text]), LineFault>
    ensures { GivesNow line_cause (λ x. (x.0, x.1.now)) result (perm_at words.now) }
{
    match words {
        [] => Err(LineFault::Kind(LineKind::Arity)),
        [word, rest @ ..] => match after(b"perm=", word.bytes()) {
            Some(text) => Ok((perm_text(text)?, rest)),
            None => Err(LineFault::Kind(LineKind::Keyword)),
        },
    }
}

// The type of a file; `unknown` is none.
#[tactic(auto, unfolding(crate::specs::Blocks::type_text))]
fn type_text(text: &[u8]) -> Result<Option<FileKindWord>, LineFault>
    ensures { GivesNow line_cause (λ x. x) result (type_text text.now) }
{
    if bytes_equal(text, b"unknown") {
        return Ok(None);
    }
    match kind_word(text) {
        Some(kind) => Ok(Some(kind)),
        None => Err(LineFault::Kind(LineKind::Keyword)),
    }
}

// `type=TYPE`.
fn type_at(words: &[Text]) -> Result<(Option<FileKindWord>, &[Text]), LineFault>
    ensures { GivesNow line_cause (λ x. (x.0, x.1.now)) result (type_at words.now) }
{
    match words {
        [] => Err(LineFault::Kind(LineKind::Arity)),
        [word, rest @ ..] => match after(b"type=", word.bytes()) {
            Some(text) => Ok((type_text(text)?, rest)),
            None => Err(LineFault::Kind(LineKind::Keyword)),
        },
    }
}

// The numbers of a device, in fields with these names.
#[tactic(auto, unfolding(crate::specs::Blocks::numbers_at))]
fn numbers_at<'a>(
    major: &[u8],
    minor: &[u8],
    words: &'a [Text],
) -> Result<(Device, &'a [Text]), LineFault>
    ensures { GivesNow line_cause (λ x. (x.0, x.1.now)) result
        (numbers_at major.now minor.now words.now) }
{
    let (major, rest) = long_at(major, words)?;
    let (minor, rest) = long_at(minor, rest)?;
    Ok((Device { major, minor }, rest))
}

// `dev_major=N dev_minor=N`, or nothing before the end of the block.
#[tactic(auto, unfolding(crate::specs::Blocks::device_at))]
fn device_at(words: &[Text]) -> Result<(Option<Device>, &[Text]), LineFault>
    ensures { GivesNow line_cause (λ x. (x.0, x.1.now)) result (device_at words.now) }
{
    if stands(b"}", words) {
        return Ok((None, words));
    }
    let (device, rest) = numbers_at(b"dev_major=", b"dev_minor=", words)?;
    Ok((Some(device), rest))
}

// `uid=N gid=N ino=N`.
#[tactic(auto, unfolding(crate::specs::Blocks::owner_at))]
fn owner_at(words: &[Text]) -> Result<(Owner, &[Text]), LineFault>
    ensures { GivesNow line_cause (λ x. (x.0, x.1.now)) result (owner_at words.now) }
{
    let (uid, rest) = long_at(b"uid=", words)?;
    let (gid, rest) = long_at(b"gid=", rest)?;
    let (ino, rest) = long_at(b"ino=", rest)?;
    Ok((Owner { uid, gid, ino }, rest))
}

// The fields of a file to the end of its block.
#[tactic(auto, unfolding(crate::specs::Blocks::file_at))]
fn file_at(words: &[Text]) -> Result<(FileNumbers, &[Text]), LineFault>
    ensures { GivesNow line_cause (λ x. (x.0, x.1.now)) result (file_at words.now) }
{
    let (owner, rest) = owner_at(words)?;
    let (home, rest) = numbers_at(b"major=", b"minor=", rest)?;
    let (perm, rest) = perm_at(rest)?;
    let (kind, rest) = type_at(rest)?;
    let (device, rest) = device_at(rest)?;
    let rest = only_at(b"}", rest)?;
    let numbers = FileNumbers {
        owner,
        home,
        perm,
        kind,
        device,
    };
    Ok((numbers, rest))
}

// The fields of a folder to the end of its block.
#[tactic(auto, unfolding(crate::specs::Blocks::folder_at))]
fn folder_at(words: &[Text]) -> Result<(FolderNumbers, &[Text]), LineFault>
    ensures { GivesNow line_cause (λ x. (x.0, x.1.now)) result (folder_at words.now) }
{
    let (owner, rest) = owner_at(words)?;
    let (perm, rest) = perm_at(rest)?;
    let rest = only_at(b"}", rest)?;
    Ok((FolderNumbers { owner, perm }, rest))
}

// The block of a file, where its first word stands next.
#[tactic(auto, unfolding(crate::specs::Blocks::file_block))]
fn file_block<'a>(
    front: &[u8],
    words: &'a [Text],
) -> Result<(Option<FileNumbers>, &'a [Text]), LineFault>
    ensures { GivesNow line_cause (λ x. (x.0, x.1.now)) result (file_block front.now words.now) }
{
    match words {
        [] => Ok((None, words)),
        [word, rest @ ..] => {
            if !bytes_equal(word.bytes(), front) {
                return Ok((None, words));
            }
            let (numbers, rest) = file_at(rest)?;
            Ok((Some(numbers), rest))
        }
    }
}

// The block of a folder, where its first word stands next.
#[tactic(auto, unfolding(crate::specs::Blocks::folder_block))]
fn folder_block<'a>(
    front: &[u8],
    words: &'a [Text],
) -> Result<(Option<FolderNumbers>, &'a [Text]), LineFault>
    ensures { GivesNow line_cause (λ x. (x.0, x.1.now)) result (folder_block front.now words.now) }
{
    match words {
        [] => Ok((None, words)),
        [word, rest @ ..] => {
            if !bytes_equal(word.bytes(), front) {
                return Ok((None, words));
            }
            let (numbers, rest) = folder_at(rest)?;
            Ok((Some(numbers), rest))
        }
    }
}

/// The blocks of a name, each of which may stand next. Errors: those of their fields.
#[tactic(auto, unfolding(crate::specs::Blocks::found_at))]
pub(crate) fn found_at<'a>(
    file: &[u8],
    folder: &[u8],
    words: &'a [Text],
) -> Result<(Found, &'a [Text]), LineFault>
    ensures { GivesNow line_cause (λ x. (x.0, x.1.now)) result
        (found_at file.now folder.now words.now) }
{
    let (file, rest) = file_block(file, words)?;
    let (folder, rest) = folder_block(folder, rest)?;
    Ok((Found { file, folder }, rest))
}

// Appends the attributes of an owner and its permissions.
fn push_owner(
    place: StatPlace,
    owner: Owner,
    perm: u64,
    out: &mut Vec<Stat>,
) -> Result<(), NoMemory>
    ensures { OnOk result (out.new.items ≡ out.old.items ++ owner_stats place owner perm) }
{
    out.push(Stat::Number(place, StatField::Uid, owner.uid))?;
    out.push(Stat::Number(place, StatField::Gid, owner.gid))?;
    out.push(Stat::Number(place, StatField::Ino, owner.ino))?;
    out.push(Stat::Number(place, StatField::Perm, perm))?;
    Ok(())
}

// Appends a device's numbers.
fn push_device(
    place: StatPlace,
    device: Option<Device>,
    out: &mut Vec<Stat>,
) -> Result<(), NoMemory>
    ensures { OnOk result (out.new.items ≡ out.old.items ++ device_stats place device) }
{
    if let Some(device) = device {
        out.push(Stat::Number(place, StatField::DevMajor, device.major))?;
        out.push(Stat::Number(place, StatField::DevMinor, device.minor))?;
    }
    Ok(())
}

// Appends a type.
fn push_kind(
    place: StatPlace,
    kind: Option<FileKindWord>,
    out: &mut Vec<Stat>,
) -> Result<(), NoMemory>
    ensures { OnOk result (out.new.items ≡ out.old.items ++ kind_stats place kind) }
{
    if let Some(kind) = kind {
        out.push(Stat::Kind(place, kind))?;
    }
    Ok(())
}

// Appends the attributes of a file, in printed order.
fn push_file(
    place: StatPlace,
    file: Option<FileNumbers>,
    out: &mut Vec<Stat>,
) -> Result<(), NoMemory>
    ensures { OnOk result (out.new.items ≡ out.old.items ++ file_stats place file) }
{
    match file {
        None => Ok(()),
        Some(file) => {
            push_owner(place, file.owner, file.perm, out)?;
            push_kind(place, file.kind, out)?;
            out.push(Stat::Number(place, StatField::Major, file.home.major))?;
            out.push(Stat::Number(place, StatField::Minor, file.home.minor))?;
            push_device(place, file.device, out)
        }
    }
}

// Appends the attributes of a folder, in printed order.
fn push_folder(
    place: StatPlace,
    folder: Option<FolderNumbers>,
    out: &mut Vec<Stat>,
) -> Result<(), NoMemory>
    ensures { OnOk result (out.new.items ≡ out.old.items ++ folder_stats place folder) }
{
    match folder {
        None => Ok(()),
        Some(folder) => push_owner(place, folder.owner, folder.perm, out),
    }
}

/// Appends the attributes of a name and its folder, in printed order.
pub(crate) fn push_found(
    file: StatPlace,
    folder: StatPlace,
    found: Found,
    out: &mut Vec<Stat>,
) -> Result<(), NoMemory>
    ensures { OnOk result (out.new.items ≡ out.old.items ++ found_stats file folder found) }
{
    push_file(file, found.file, out)?;
    push_folder(folder, found.folder, out)
}
