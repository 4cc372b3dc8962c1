//! Boards and their passes, on one thread.
ghost use Rattle.std.specs.Prelude.{◌≡◌};
ghost use Rattle.tm_publish.specs.Boards.{Names, blank_parts};

use crate::tally::Tally;
use std::alloc::Global;
use std::marker::Brand;
use std::process::Abort;
use std::sync::Wait;
use std::test::Fail;
use tm_publish::blank::Blank;
use tm_publish::front::Named;
use tm_publish::open::open_board;

#[test]
fn a_board_publishes_what_its_passes_make(rt: HostRuntime) -> Result<(), Fail> {
    published::<Brand, _>(&rt, rt.alloc(), Blank::new(2))
}

fn published<L: Named, R: Wait + Abort>(
    rt: &R,
    alloc: Global,
    blank: Blank<Tally>,
) -> Result<(), Fail>
    requires named { Names L.name L.parts L.history blank }
    requires two { blank_parts blank ≡ 2 }
{
    let hall = Tally {
        start: 5,
        steps: Vec::new(alloc),
    };
    let (mut board, mut passes) = open_board::<L, Tally, R>(rt, alloc, blank, hall, 2)?;
    let mut b = passes.pop().ok_or("two passes")?;
    let mut a = passes.pop().ok_or("two passes")?;
    assert_eq!(rt;
        a.look(|hall: &Tally, version: u64| (hall.start, version)),
        Some((5, 0))
    );
    assert_eq!(rt; (a.version(), a.refused(), board.version()), (0, 0, 0));
    assert_eq!(rt; board.publish(rt, alloc, &mut a, 7), Ok(1));
    assert_eq!(rt; board.publish(rt, alloc, &mut b, 7), Ok(2));
    assert_eq!(rt; board.publish(rt, alloc, &mut b, 9), Ok(3));
    assert_eq!(rt; (a.version(), b.version()), (1, 3));
    let front = board.front().again();
    assert_eq!(rt; front.version(), 3);
    a.told(&front);
    assert_eq!(rt;
        a.look(|hall: &Tally, version: u64| (hall.steps.len(), version)),
        Some((3, 3))
    );
    assert_eq!(rt; board.office().steps.as_slice(), [7, 7, 9].as_slice());
    assert!(rt; !board.is_stopped());
    board.stop();
    assert!(rt; board.is_stopped());
    assert!(rt; board.publish(rt, alloc, &mut a, 8).is_err());
    assert_eq!(rt; (a.refused(), b.refused()), (0, 0));
    passes.push(a)?;
    passes.push(b)?;
    let closed = board.close(rt, passes)?;
    assert_eq!(rt;
        (closed.own, closed.office.steps.as_slice()),
        (3, [7, 7, 9].as_slice())
    );
    Ok(())
}
