//! A job of a replay: a part, played with a pass of its own.
ghost use Rattle.std.specs.Prelude.{◌≡◌, ◌<◌, ◌≤◌, [], length, Some, None, IfOk, OnOk};
ghost use Rattle.tm_desk.specs.Desks.{desk_book, IsDesk};
ghost use Rattle.tm_publish.specs.Words.{known, made_of};
ghost use Rattle.tm_seat.specs.Parts.{deed, CanBegin, HasCome, EditorDid, SupervisorDid};
ghost use Rattle.tm_replay.specs.Seats.{home_of};
ghost use Rattle.tm_replay.specs.Jobs.{IsGiven, IsJob, GoesBack, IsPlayedOut, JobIsDone};

use crate::at::At;
use std::alloc::Global;
use std::sync::Wait;
use tm_desk::Desk;
use tm_engine::engine::EngineOf;
use tm_engine::gate::Gate;
use tm_list::{NoMemory, Seq};
use tm_machine::Machine;
use tm_machine::rep::Rep;
use tm_office::{Hall, Office};
use tm_publish::front::Named;
use tm_publish::page::{Page, Sheet};
use tm_publish::pass::Pass;
use tm_seat::{Part, Seat, Work, play_editor};
use tm_serve::serve;
use tm_types::step::{FileKind, Query};
use tm_word::Text;

/// A part, the pass with which it is played, and what was played; nothing where playing failed.
#[derive(Drop)]
pub(crate) struct Job<L: Named, O: Office, H, D> {
    pub(crate) part: Option<Part<H>>,
    pub(crate) pass: Option<Pass<L, O>>,
    pub(crate) rows: Option<Seq<D>>,
}

/// What is the same for all jobs of a replay: the runtime of its threads, where memory is taken, the
/// engine, the desk, the gate, the way in which workers work, and whether a supervisor stands.
#[derive(Drop)]
pub(crate) struct FieldOf<'a, 'b, L: Named, O: Hall, T: Sheet<L, O>, F, W, G, K> {
    pub(crate) rt: &'a W,
    pub(crate) alloc: Global,
    pub(crate) engine: &'a EngineOf<L, O, T>,
    pub(crate) desk: &'a Desk<'b, F>,
    pub(crate) gate: &'a G,
    pub(crate) way: &'a K,
    pub(crate) supervised: bool,
}

pub(crate) type Field<'a, 'b, L, O, F, W, G, K> = FieldOf<'a, 'b, L, O, Page<L, O>, F, W, G, K>;

// A worker's hand.
fn run_worker<L: Named, R: Rep, F, W: Wait, G: Gate, H, D, K: Work<H, D>>(
    field: &Field<'_, '_, L, Machine<R>, F, W, G, K>,
    pass: Pass<L, Machine<R>>,
    hand: H,
) -> (Pass<L, Machine<R>>, Result<Vec<D>, NoMemory>)
    requires can { CanBegin (home_of pass) }
    requires stands { field.now.supervised ≡ (home_of pass).desk }
    requires ready { K.ready field.now.way.now (home_of pass) hand }
    requires made { made_of pass ≡ [] }
    ensures did { IfOk result.1 (λ rows. K.did field.now.way.now (home_of pass) (length (known pass)) hand
        (deed (known result.0) (made_of result.0) rows.items)) }
    ensures back { GoesBack pass result.0 }
{
    let mut seat = At {
        rt: field.rt,
        engine: field.engine,
        pass,
        gate: field.gate,
    };
    seat.arrive(0);
    let rows = field
        .way
        .work(field.rt, &mut seat, field.alloc, hand, field.supervised);
    let At {
        rt: _,
        engine: _,
        pass,
        gate: _,
    } = seat;
    pass.seen();
    (pass, rows)
}

// An editor's lines.
fn run_editor<L: Named, R: Rep, F, W: Wait, G: Gate, K>(
    field: &Field<'_, '_, L, Machine<R>, F, W, G, K>,
    pass: Pass<L, Machine<R>>,
    editor: u32,
    lines: Seq<(FileKind, Text)>,
) -> (Pass<L, Machine<R>>, Result<(), NoMemory>)
    requires above { 0 < editor }
    requires inside { editor ≤ length (home_of pass).editors }
    requires made { made_of pass ≡ [] }
    ensures did { OnOk result.1 (EditorDid editor lines (known result.0) (made_of result.0)) }
    ensures back { GoesBack pass result.0 }
{
    let mut seat = At {
        rt: field.rt,
        engine: field.engine,
        pass,
        gate: field.gate,
    };
    seat.arrive(0);
    let done = play_editor(&mut seat, field.alloc, editor, lines);
    let At {
        rt: _,
        engine: _,
        pass,
        gate: _,
    } = seat;
    pass.seen();
    (pass, done)
}

// The supervisor's answers, and its leaving.
fn run_desk<L: Named, R: Rep, F: Fn(&Query) -> u64, W: Wait, G, K>(
    field: &Field<'_, '_, L, Machine<R>, F, W, G, K>,
    pass: &mut Pass<L, Machine<R>>,
) -> Result<(), NoMemory>
    requires desk { IsDesk F.Fn field.now.desk.now }
    requires come { HasCome (known pass.old) (made_of pass.old) }
    ensures did { OnOk result (SupervisorDid (home_of pass.old) (desk_book field.now.desk.now)
        (known pass.new) (made_of pass.new)) }
    ensures back { GoesBack pass.old pass.new }
{
    pass.seen();
    let served = serve(field.rt, field.alloc, field.engine, pass, field.desk);
    pass.seen();
    match served {
        Ok(_) => Ok(()),
        Err(fault) => Err(fault),
    }
}

// A part, with a pass that is given back.
fn run_part<L: Named, R: Rep, F: Fn(&Query) -> u64, W: Wait, G: Gate, H, D: Drop, K: Work<H, D>>(
    field: &Field<'_, '_, L, Machine<R>, F, W, G, K>,
    part: Part<H>,
    pass: Pass<L, Machine<R>>,
) -> (Pass<L, Machine<R>>, Option<Seq<D>>)
    requires desk { IsDesk F.Fn field.now.desk.now }
    requires given { IsGiven (K.ready field.now.way.now) field.now.supervised part pass }
    ensures { IsPlayedOut (K.did field.now.way.now) (desk_book field.now.desk.now) part pass result.0 result.1 }
{
    match part {
        Part::Worker(hand) => {
            match run_worker(field, pass, hand) {
                (pass, Ok(rows)) => (pass, Some(Seq::from_vec(rows))),
                (pass, Err(_)) => (pass, None),
            }
        }
        Part::Editor(editor, lines) => {
            match run_editor(field, pass, editor, lines) {
                (pass, Ok(())) => (pass, Some(Seq::new(field.alloc))),
                (pass, Err(_)) => (pass, None),
            }
        }
        Part::Desk => {
            let mut pass = pass;
            match run_desk(field, &mut pass) {
                Ok(()) => (pass, Some(Seq::new(field.alloc))),
                Err(_) => (pass, None),
            }
        }
    }
}

/// Plays a job's part with its pass, which goes back. Where it fails, the engine is stopped, so
/// that nobody waits for what will not come.
pub(crate) fn run_job<
    L: Named,
    R: Rep,
    F: Fn(&Query) -> u64,
    W: Wait,
    G: Gate,
    H: Drop,
    D: Drop,
    K: Work<H, D>,
>(field: &Field<'_, '_, L, Machine<R>, F, W, G, K>, job: &mut Job<L, Machine<R>, H, D>)
    requires desk { IsDesk F.Fn field.now.desk.now }
    requires given { IsJob (K.ready field.now.way.now) field.now.supervised job.old.part job.old.pass }
    ensures { JobIsDone (K.did field.now.way.now) (desk_book field.now.desk.now) job.old.part job.old.pass
        job.new.pass job.new.rows }
{
    let Some(part) = job.part.take() else {
        unreachable!()
    };
    let Some(pass) = job.pass.take() else {
        unreachable!()
    };
    let (pass, rows) = run_part(field, part, pass);
    if rows.is_none() {
        field.engine.stop(field.rt);
    }
    job.pass = Some(pass);
    job.rows = rows;
}
