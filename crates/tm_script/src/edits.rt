//! Edits: editors and the policy lines that they write.
ghost use Rattle.std.specs.Prelude.{◌≡◌, ◌+◌, ◌≤◌, length, IfOk};
ghost use Rattle.tm_word.specs.Prelude.{Gives, GivesNow};
ghost use Rattle.tm_script.specs.Steps.{kind_cause, word_at};
ghost use Rattle.tm_script.specs.Lines.{script_cause};
ghost use Rattle.tm_script.specs.Written.{edit_count};
ghost use Rattle.tm_script.specs.Edits.{exe_word, domain_rest, editor_of, file_of, line_text, with_line, edit_by, all_editors, edits_of};

use crate::lines::{Script, read_script};
use crate::steps::{KindFault, number_at};
use std::alloc::Global;
use tm_line::{domain_to_end, joined};
use tm_list::{NoMemory, Seq};
use tm_types::request::{ScriptFault, ScriptKind};
use tm_types::step::{Editor, FileKind, LineFault};
use tm_types::unions::DomainName;
use tm_word::{Text, Word, begins_with, bytes_equal, of_word, spelled_word};

/// The editors that have been read: those before the last one, and the last one, whose lines come
/// next.
#[derive(Drop)]
struct Edits {
    before: Seq<Editor>,
    last: Option<Editor>,
}

/// Reads an editor's program: a literal path. Errors: `Word`.
#[tactic(auto, unfolding(crate::specs::Edits::exe_word))]
fn exe_word(alloc: Global, text: &[u8]) -> Result<Word, KindFault>
    ensures { Gives kind_cause (λ word. word) result (exe_word text.now) }
{
    if !begins_with(b'/', text) {
        return Err(KindFault::Kind(ScriptKind::Word));
    }
    match spelled_word(alloc, text)? {
        Some(word) => Ok(word),
        None => Err(KindFault::Kind(ScriptKind::Word)),
    }
}

/// Reads an editor's program at the front, and answers the words after it. Errors: `Arity` where no
/// word is left, `Word`.
fn exe_at(alloc: Global, words: &[Text]) -> Result<(Word, &[Text]), KindFault>
    ensures { Gives kind_cause (λ x. (x.0, x.1.now)) result (word_at exe_word words.now) }
{
    match words {
        [] => Err(KindFault::Kind(ScriptKind::Arity)),
        [word, rest @ ..] => Ok((exe_word(alloc, word.bytes())?, rest)),
    }
}

/// Reads an editor's domain, whose name runs to the line's end. Errors: `Arity` where no word is
/// left, `Domain`.
#[tactic(auto, unfolding(crate::specs::Edits::domain_rest, tm_line::specs::Domains::domain_to_end))]
fn domain_rest(alloc: Global, words: &[Text]) -> Result<DomainName, KindFault>
    ensures { Gives kind_cause (λ name. name) result (domain_rest words.now) }
{
    match words {
        [] => Err(KindFault::Kind(ScriptKind::Arity)),
        [_, ..] => match domain_to_end(alloc, words) {
            Ok(name) => Ok(name),
            Err(LineFault::NoMemory) => Err(KindFault::NoMemory),
            Err(LineFault::Kind(_)) => Err(KindFault::Kind(ScriptKind::Domain)),
        },
    }
}

/// Reads `UID EUID EXE DOMAIN`.
#[tactic(auto, unfolding(crate::specs::Edits::editor_of))]
fn editor_of(alloc: Global, words: &[Text]) -> Result<Editor, KindFault>
    ensures { Gives kind_cause (λ editor. editor) result (editor_of words.now) }
{
    let (uid, words) = number_at(1 << 32, words)?;
    let (euid, words) = number_at(1 << 32, words)?;
    let (exe, words) = exe_at(alloc, words)?;
    let domain = domain_rest(alloc, words)?;
    Ok(Editor {
        uid: uid as u32,
        euid: euid as u32,
        exe,
        domain,
        lines: Seq::new(alloc),
    })
}

/// The file that an edit is for. Errors: `Keyword`.
#[tactic(auto, unfolding(crate::specs::Edits::file_of))]
fn file_of(key: &[u8]) -> Result<FileKind, KindFault>
    ensures { GivesNow kind_cause (λ file. file) result (file_of key.now) }
{
    match of_word::<FileKind>(key) {
        Some(file) => Ok(file),
        None => Err(KindFault::Kind(ScriptKind::Keyword)),
    }
}

/// The line of an edit. Errors: `Arity` where it has no word.
fn line_text(alloc: Global, words: &[Text]) -> Result<Text, KindFault>
    ensures { Gives kind_cause (λ text. text) result (line_text words.now) }
{
    match words {
        [] => Err(KindFault::Kind(ScriptKind::Arity)),
        [_, ..] => Ok(Seq::from_vec(joined(alloc, words)?)),
    }
}

/// The editor with one line more.
fn with_line(editor: Editor, file: FileKind, text: Text) -> Result<Editor, NoMemory>
    ensures { IfOk result (λ next. next ≡ with_line editor file text) }
{
    let mut editor = editor;
    editor.lines.push((file, text))?;
    Ok(editor)
}

/// All editors, in order.
fn all_editors(edits: Edits) -> Result<Seq<Editor>, NoMemory>
    ensures { IfOk result (λ editors. editors ≡ all_editors edits) }
{
    let Edits { mut before, last } = edits;
    match last {
        None => Ok(before),
        Some(editor) => {
            before.push(editor)?;
            Ok(before)
        }
    }
}

/// An edit of the last editor. Errors: `NoEditor` before the first one, `Arity` where the edit has
/// no word.
fn edit_by(alloc: Global, edits: Edits, file: FileKind, words: &[Text]) -> Result<Edits, KindFault>
    ensures { Gives kind_cause (λ next. next) result (edit_by edits edits.last file words.now) }
{
    let Edits { before, last } = edits;
    match last {
        None => Err(KindFault::Kind(ScriptKind::NoEditor)),
        Some(editor) => {
            let text = line_text(alloc, words)?;
            let editor = with_line(editor, file, text)?;
            Ok(Edits {
                before,
                last: Some(editor),
            })
        }
    }
}

impl Script for Edits {
    ghost use Rattle.tm_script.specs.Edits.{edits_line};

    ghost line = { edits_line };

    #[tactic(auto, unfolding(crate::specs::Edits::edits_line))]
    fn after_words(self, alloc: Global, key: &[u8], words: &[Text]) -> Result<Edits, KindFault> {
        if bytes_equal(key, b"editor") {
            let editor = editor_of(alloc, words)?;
            let before = all_editors(self)?;
            return Ok(Edits {
                before,
                last: Some(editor),
            });
        }
        let file = file_of(key)?;
        edit_by(alloc, self, file, words)
    }
}

/// Reads edits: `editor UID EUID EXE DOMAIN` begins the next editor, numbered from 1, and `profile
/// LINE`, `exception_policy LINE`, `domain_policy LINE` and `manager LINE` are its edits, in order.
/// EXE is a literal path. LINE is kept as its words joined by single spaces; it is judged when its
/// step is made. Lines without words count and are skipped.
///
/// Errors: the first wrong line, from 1, with the kind of its first wrong word, or want of memory.
#[tactic(auto, unfolding(crate::specs::Edits::edits_of))]
pub fn read_edits(alloc: Global, bytes: &[u8]) -> Result<Vec<Editor>, ScriptFault>
    ensures exact { Gives script_cause (λ editors. editors.items) result (edits_of bytes.now) }
    ensures few { IfOk result
        (λ editors. length editors.items + edit_count editors.items ≤ length bytes.now) }
{
    let start = Edits {
        before: Seq::new(alloc),
        last: None,
    };
    let edits = read_script(alloc, start, bytes)?;
    match all_editors(edits) {
        Ok(editors) => Ok(editors.into_vec()),
        Err(_) => Err(ScriptFault::NoMemory),
    }
}
