//! The two copies of the office.
ghost use Rattle.std.specs.Prelude.{◌≡◌, ◌<◌, ◌≤◌, ◌^◌, ◌++◌, Some, MatchResult};
ghost use Rattle.tm_publish.specs.History.{next_key, IsNext, MayFollow, entries};

use crate::event::Event;
use crate::front::{Front, Named};
use crate::last::Last;
use crate::mind::Mind;
use crate::page::{Sheet, catch_up};
use crossbeam_utils::rule::Unruled;
use left_right::writer::Writer;
use std::alloc::{AllocError, Global};
use std::marker::PhantomData;
use std::sync::Wait;
use tm_list::NoMemory;
use tm_office::Office;

/// The copy that passes look at, the spare one, the step that the spare one lacks, if any, and the
/// end of the history, which is what passes look at.
pub struct Press<L: Named, O: Office, T: Sheet<L, O>> {
    pub(crate) writer: Writer<T, (), (), Unruled>,
    late: Option<O::Step>,
    pub(crate) last: Last<L, O>,
    of: PhantomData<(L, Event<O::Opening, O::Step>)>,
    pub ghost key: { last.pen.nib.key ≡ next_key (T.log writer.desk.shown.value) },
    pub ghost lag: { T.log writer.desk.shown.value ≡ T.log writer.desk.spare.value
        ++ entries (next_key (T.log writer.desk.shown.value)) late },
    pub ghost fits: { (s : O.Step) → late ≡ Some s →
        ∥ MayFollow O.fits (T.log writer.desk.spare.value) s ∥₁ },
}

impl<L: Named, O: Office, T: Sheet<L, O>> Press<L, O, T> {
    /// Two copies of one page.
    pub(crate) fn new(writer: Writer<T, (), (), Unruled>, last: Last<L, O>) -> Press<L, O, T>
        requires same { T.log writer.desk.shown.value ≡ T.log writer.desk.spare.value }
        requires key { last.pen.nib.key ≡ next_key (T.log writer.desk.shown.value) }
        ensures { result.writer.desk.shown.value ≡ writer.desk.shown.value }
    {
        Press {
            writer,
            late: None,
            last,
            of: PhantomData,
        }
    }

    /// What is published is all that was entered, so a pass knows no more.
    pub(crate) fn meet(&mut self, mind: &Mind<L, O>, now: &Front<L, O>)
        requires now { now.now.seen.log ≡ T.log self.old.writer.desk.shown.value }
        ensures met { mind.now.front.version ≤ now.now.version }
        ensures same { self.new.writer ≡ self.old.writer }
    {
        mind.meet(&mut self.last, now, self.writer.published().office());
    }

    /// Publishes one step more, and answers the front that it comes to. It waits for those that
    /// still look at the spare copy.
    ///
    /// Errors: want of memory; what is published stays.
    pub(crate) fn print<W: Wait>(
        self,
        rt: &W,
        alloc: Global,
        step: O::Step,
        now: &Front<L, O>,
    ) -> (Press<L, O, T>, Result<Front<L, O>, NoMemory>)
        requires now { now.now.seen.log ≡ T.log self.writer.desk.shown.value }
        requires fits { MayFollow O.fits now.now.seen.log step }
        requires room { now.now.version < 2 ^ 62 }
        ensures { MatchResult result.1
            (λ next. (T.log result.0.writer.desk.shown.value ≡ next.seen.log)
            × IsNext now.now.seen.log step next.seen.log)
            (λ _. T.log result.0.writer.desk.shown.value ≡ now.now.seen.log) }
    {
        let Press {
            mut writer,
            late,
            mut last,
            of,
        } = self;
        let (open, mut spare) = writer.desk.open(rt);
        if let Err(step) = catch_up(&mut *spare, alloc, late, now) {
            writer.desk = open.shelve(spare);
            let press = Press {
                writer,
                late: Some(step),
                last,
                of,
            };
            return (press, Err(AllocError));
        }
        let Ok(next) = spare.grow(alloc, &step, now, &mut last) else {
            writer.desk = open.shelve(spare);
            let press = Press {
                writer,
                late: None,
                last,
                of,
            };
            return (press, Err(AllocError));
        };
        writer.desk = open.show_as::<Unruled>(spare);
        let press = Press {
            writer,
            late: Some(step),
            last,
            of,
        };
        (press, Ok(next))
    }

    /// The published page, and the end of the history, which it is. It waits for those that look.
    pub(crate) fn take<W: Wait>(self, rt: &W) -> (Box<T>, Last<L, O>)
        ensures page { result.0.value ≡ self.writer.desk.shown.value }
        ensures key { result.1.pen.nib.key ≡ next_key (T.log result.0.value) }
    {
        let Press {
            writer,
            late: _,
            last,
            of: _,
        } = self;
        (writer.take(rt), last)
    }
}
