//! Engines of a machine, on one thread.

use crate::opened::{Trial, ask, learn, tried_at_machine};
use crate::steps::{is_answered, is_replied, is_seen, query_heard, told_newest};
use std::alloc::Global;
use std::cell::RefCell;
use std::process::Abort;
use std::sync::Wait;
use std::test::Fail;
use std::thread::Threads;
use tm_engine::engine::Engine;
use tm_machine::Machine;
use tm_office::DeskHall;
use tm_publish::front::Named;
use tm_publish::pass::Pass;
use tm_rep::Rep;
use tm_types::step::{AnswerFault, Answered, Held, LearnReply, Reply};

// Two passes that learn the same line.
struct OneLine;

impl<R: Rep + Send + Sync> Trial<Machine<R>> for OneLine {
    fn play<L: Named + Send + Sync, W: Threads + Wait + Abort + Sync>(
        &self,
        rt: &W,
        alloc: Global,
        engine: &Engine<L, Machine<R>>,
        a: &mut Pass<L, Machine<R>>,
        b: &mut Pass<L, Machine<R>>,
    ) -> Result<(), Fail> {
        assert!(rt; is_seen(engine, a, 1, None, 0));
        assert_eq!(rt; (a.version(), a.refused()), (0, 0));
        let added = Reply::Learn(LearnReply::Added);
        assert!(rt; is_replied(rt, alloc, engine, a, learn(alloc)?, 1, added));
        let there = Reply::Learn(LearnReply::There);
        assert!(rt; is_replied(rt, alloc, engine, b, learn(alloc)?, 2, there));
        assert!(rt; is_seen(engine, a, 2, Some(there), 2));
        assert!(rt; is_seen(engine, b, 3, None, 2));
        assert_eq!(rt; (a.refused(), b.refused()), (0, 0));
        Ok(())
    }

    fn judge<W: Abort>(&self, rt: &W, own: u64, office: &Machine<R>) -> Result<(), Fail> {
        assert_eq!(rt; (own, office.version()), (2, 2));
        assert!(rt; office.reply(1) == Some(Reply::Learn(LearnReply::Added)));
        assert!(rt; office.reply(2) == Some(Reply::Learn(LearnReply::There)));
        assert!(rt; office.step_at(2).is_some() && office.step_at(3).is_none());
        Ok(())
    }
}

#[test]
fn two_passes_learn_one_line(rt: HostRuntime) -> Result<(), Fail> {
    tried_at_machine(&rt, rt.alloc(), &OneLine)
}

// A pass that is told of three steps of another.
struct Told;

impl<R: Rep + Send + Sync> Trial<Machine<R>> for Told {
    fn play<L: Named + Send + Sync, W: Threads + Wait + Abort + Sync>(
        &self,
        rt: &W,
        alloc: Global,
        engine: &Engine<L, Machine<R>>,
        a: &mut Pass<L, Machine<R>>,
        b: &mut Pass<L, Machine<R>>,
    ) -> Result<(), Fail> {
        let attach = Machine::<R>::attach_step();
        assert!(rt; is_replied(rt, alloc, engine, a, attach, 1, Reply::Attach(true)));
        let held = Reply::Ask(Held::Serial(1));
        assert!(rt; is_replied(rt, alloc, engine, a, ask(alloc)?, 2, held));
        let detach = Machine::<R>::detach_step();
        assert!(rt; is_replied(rt, alloc, engine, a, detach, 3, Reply::Detach(true)));
        assert_eq!(rt; b.version(), 0);
        assert_eq!(rt; told_newest(rt, engine, a, b), 3);
        assert_eq!(rt; b.version(), 3);
        assert!(rt; is_seen(engine, b, 3, Some(Reply::Detach(true)), 3));
        Ok(())
    }

    fn judge<W: Abort>(&self, rt: &W, own: u64, office: &Machine<R>) -> Result<(), Fail> {
        assert_eq!(rt; (own, office.version()), (3, 3));
        Ok(())
    }
}

#[test]
fn a_pass_that_is_told_of_a_front_looks_at_it(rt: HostRuntime) -> Result<(), Fail> {
    tried_at_machine(&rt, rt.alloc(), &Told)
}

// A look within the function of a look.
struct Within;

impl<R: Rep + Send + Sync> Trial<Machine<R>> for Within {
    fn play<L: Named + Send + Sync, W: Threads + Wait + Abort + Sync>(
        &self,
        rt: &W,
        _alloc: Global,
        engine: &Engine<L, Machine<R>>,
        a: &mut Pass<L, Machine<R>>,
        b: &mut Pass<L, Machine<R>>,
    ) -> Result<(), Fail> {
        let b = RefCell::new(b);
        let found = engine.read(a, |_, outer: u64| match b.try_borrow_mut() {
            Ok(mut inner) => engine.read(&mut **inner, |_, version: u64| (outer, version)),
            Err(_) => None,
        });
        assert_eq!(rt; found, Some(Some((0, 0))));
        Ok(())
    }

    fn judge<W: Abort>(&self, rt: &W, own: u64, office: &Machine<R>) -> Result<(), Fail> {
        assert_eq!(rt; (own, office.version()), (0, 0));
        Ok(())
    }
}

#[test]
fn a_machine_is_read_within_a_read(rt: HostRuntime) -> Result<(), Fail> {
    tried_at_machine(&rt, rt.alloc(), &Within)
}

// A supervisor that answers what nobody asks, and otherwise than anybody can.
struct Hostile;

impl<R: Rep + Send + Sync> Trial<Machine<R>> for Hostile {
    fn play<L: Named + Send + Sync, W: Threads + Wait + Abort + Sync>(
        &self,
        rt: &W,
        alloc: Global,
        engine: &Engine<L, Machine<R>>,
        a: &mut Pass<L, Machine<R>>,
        b: &mut Pass<L, Machine<R>>,
    ) -> Result<(), Fail> {
        let attach = Machine::<R>::attach_step();
        assert!(rt; is_replied(rt, alloc, engine, a, attach, 1, Reply::Attach(true)));
        assert!(rt; is_answered(rt, alloc, engine, a, (9, 1), 2, Some(AnswerFault::NoQuery)));
        let held = Reply::Ask(Held::Serial(1));
        assert!(rt; is_replied(rt, alloc, engine, b, ask(alloc)?, 3, held));
        assert!(rt; is_answered(rt, alloc, engine, a, (0, 1), 4, Some(AnswerFault::NoQuery)));
        assert!(rt; is_answered(rt, alloc, engine, a, (2, 1), 5, Some(AnswerFault::NoQuery)));
        assert!(rt;
            is_answered(
                rt,
                alloc,
                engine,
                a,
                (1, 0),
                6,
                Some(AnswerFault::BadAnswer)
            )
        );
        assert!(rt;
            is_answered(
                rt,
                alloc,
                engine,
                a,
                (1, 4),
                7,
                Some(AnswerFault::BadAnswer)
            )
        );
        assert!(rt; matches!(query_heard(rt, alloc, engine, a), Ok(Some(_))));
        assert!(rt; is_answered(rt, alloc, engine, a, (1, 1), 8, None));
        assert!(rt; is_answered(rt, alloc, engine, a, (1, 2), 9, Some(AnswerFault::Answered)));
        let detach = Machine::<R>::detach_step();
        assert!(rt; is_replied(rt, alloc, engine, a, detach, 10, Reply::Detach(true)));
        let nobody = Reply::Ask(Held::Nobody);
        assert!(rt; is_replied(rt, alloc, engine, b, ask(alloc)?, 11, nobody));
        assert!(rt;
            is_answered(
                rt,
                alloc,
                engine,
                a,
                (u64::MAX, u64::MAX),
                12,
                Some(AnswerFault::NoQuery)
            )
        );
        Ok(())
    }

    fn judge<W: Abort>(&self, rt: &W, own: u64, office: &Machine<R>) -> Result<(), Fail> {
        assert_eq!(rt; (own, office.version()), (12, 12));
        assert!(rt; matches!(office.answer_of(1), Some(Answered::Yes)));
        Ok(())
    }
}

#[test]
fn answers_that_fit_no_query_change_nothing(rt: HostRuntime) -> Result<(), Fail> {
    tried_at_machine(&rt, rt.alloc(), &Hostile)
}
