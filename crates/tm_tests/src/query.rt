//! Calls of `tm_query`.
use std::alloc::Global;
use std::test::Fail;
use tm_list::{Copied, NoMemory, Seq};
use tm_query::Queries;
use tm_types::step::{AnswerFault, Answered, Held};

/// A request of `<kernel>` that is asked for the first time.
fn ask(alloc: Global, queries: &mut Queries) -> Result<Held, NoMemory> {
    let domain = Seq::from_bytes(alloc, b"<kernel>")?;
    let line = Seq::from_bytes(alloc, b"file read /x")?;
    queries.ask(domain, line, 0)
}

#[test]
fn a_supervisor_answers_what_is_held(rt: HostRuntime) -> Result<(), Fail> {
    let mut queries = Queries::new(rt.alloc());
    assert!(rt; queries.attach());
    assert!(rt; !queries.attach());
    assert!(rt; matches!(queries.answer(9, 1), Err(AnswerFault::NoQuery)));
    assert!(rt; matches!(ask(rt.alloc(), &mut queries)?, Held::Serial(1)));
    assert_eq!(rt; queries.open_count(), 1);
    assert!(rt; matches!(queries.answer(1, 4), Err(AnswerFault::BadAnswer)));
    assert!(rt; matches!(queries.answer_of(1), None));
    assert!(rt; matches!(queries.answer(1, 1), Ok(())));
    assert!(rt; matches!(queries.answer(1, 2), Err(AnswerFault::Answered)));
    assert_eq!(rt; queries.open_count(), 0);
    assert!(rt; queries.first().is_none());
    Ok(())
}

#[test]
fn a_query_keeps_its_answer(rt: HostRuntime) -> Result<(), Fail> {
    let mut queries = Queries::new(rt.alloc());
    assert!(rt; queries.attach());
    assert!(rt; matches!(ask(rt.alloc(), &mut queries)?, Held::Serial(1)));
    assert!(rt; matches!(ask(rt.alloc(), &mut queries)?, Held::Serial(2)));
    assert!(rt; matches!(queries.answer(1, 3), Ok(())));
    let copied = queries.copy(rt.alloc())?;
    assert!(rt; queries.detach());
    assert!(rt; !queries.detach());
    assert!(rt; matches!(queries.answer(9, 1), Err(AnswerFault::NoQuery)));
    assert!(rt; matches!(queries.answer(1, 1), Err(AnswerFault::Answered)));
    assert!(rt; matches!(queries.answer(2, 1), Err(AnswerFault::Answered)));
    assert!(rt; matches!(queries.answer_of(1), Some(Answered::Retry)));
    assert!(rt; matches!(queries.answer_of(2), Some(Answered::Detached)));
    assert!(rt; matches!(ask(rt.alloc(), &mut queries)?, Held::Nobody));
    assert!(rt; copied.attached());
    assert!(rt; matches!(copied.answer_of(1), Some(Answered::Retry)));
    assert!(rt; matches!(copied.answer_of(2), None));
    assert_eq!(rt; copied.open_count(), 1);
    Ok(())
}
