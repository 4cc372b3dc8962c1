//! The judge of a given run: whether it is legal for the other files, or what it breaks first.
ghost use Rattle.std.specs.Prelude.{◌≡◌, ◌++◌, Option, IfOk, IfErr, OnOk};
ghost use Rattle.tm_rules.specs.Prelude.{IsFew};
ghost use Rattle.tm_legal.specs.Prelude.{CanPlay};
ghost use Rattle.tm_call.specs.declared.words.Command.{Command};
ghost use Rattle.tm_gen_laws.specs.Reading.{scene_of};
ghost use Rattle.tm_verify_laws.specs.declared.broken.Broken.{Broken};
ghost use Rattle.tm_verify.specs.Verified.{IsVerified};
ghost use Rattle.tomoyo.specs.Verify.{roman, verdict_text, verify_outcome};
ghost use Rattle.tomoyo.specs.Call.{Allows, Refuses};

use crate::print::push_count;
use std::alloc::{AllocError, Global};
use tm_call::{Outcome, Status};
use tm_gen_laws::call_input::{Judging, read_judging};
use tm_io::FileList;
use tm_list::NoMemory;
use tm_script::has_supervisor;
use tm_verify::legal;
use tm_verify::rep::Rep;
use tm_verify_laws::Broken;
use tm_word::Text;

// Judges a run by the scene that was read with it.
fn judge(alloc: Global, judging: &Judging) -> Result<Option<Broken>, NoMemory>
    requires few { IsFew judging.now.scene.policy }
    requires can { CanPlay (scene_of judging.now.scene) }
    ensures { IfOk result (IsVerified (scene_of judging.now.scene) judging.now.run) }
{
    let scene = &judging.scene;
    if scene.trace.len() >= 4_294_967_295 {
        return Err(AllocError);
    }
    let book = if has_supervisor(&scene.book) {
        Some(&scene.book)
    } else {
        None
    };
    legal(
        alloc,
        scene.policy.policy(),
        &scene.trace,
        scene.editors.as_slice(),
        book,
        &judging.run,
    )
}

// Appends a clause's number as a small roman numeral.
fn push_roman(clause: u8, out: &mut Vec<u8>) -> Result<(), NoMemory>
    ensures { OnOk result (out.new.items ≡ out.old.items ++ roman clause) }
{
    match clause {
        1 => out.extend_from_slice(b"i"),
        2 => out.extend_from_slice(b"ii"),
        3 => out.extend_from_slice(b"iii"),
        4 => out.extend_from_slice(b"iv"),
        5 => out.extend_from_slice(b"v"),
        6 => out.extend_from_slice(b"vi"),
        7 => out.extend_from_slice(b"vii"),
        _ => out.extend_from_slice(b"viii"),
    }
}

// The line of a verdict.
fn verdict_line(alloc: Global, broken: Option<Broken>) -> Result<Text, NoMemory>
    ensures { IfOk result (λ line. line ≡ verdict_text broken) }
{
    let mut line = Vec::new(alloc);
    match broken {
        None => line.extend_from_slice(b"legal yes\n")?,
        Some(broken) => {
            line.extend_from_slice(b"legal no ")?;
            push_roman(broken.clause, &mut line)?;
            line.push(b' ')?;
            push_count(alloc, broken.place, &mut line)?;
            line.push(b'\n')?;
        }
    }
    Ok(Text::from_vec(line))
}

// What is put of what was read; nothing is stored.
fn verify_outcome(alloc: Global, judging: &Judging) -> Result<Outcome, NoMemory>
    requires few { IsFew judging.now.scene.policy }
    requires can { CanPlay (scene_of judging.now.scene) }
    ensures { IfOk result (λ outcome. (broken : Option Broken)
        × IsVerified (scene_of judging.now.scene) judging.now.run broken
        × (outcome ≡ verify_outcome broken)) }
{
    let broken = judge(alloc, judging)?;
    let line = verdict_line(alloc, broken)?;
    let stores = FileList::new(alloc);
    Ok(Outcome { stores, line })
}

/// Judges the run that was read, or refuses what was read.
pub fn make_verify(alloc: Global, texts: FileList) -> Result<Outcome, Status>
    ensures made { IfOk result (Allows Command.Verify texts) }
    ensures refused { IfErr result (Refuses Command.Verify texts) }
{
    match read_judging(alloc, texts) {
        Err(status) => Err(status),
        Ok(judging) => match verify_outcome(alloc, &judging) {
            Ok(outcome) => Ok(outcome),
            Err(_) => Err(Status::OutOfMemory),
        },
    }
}
