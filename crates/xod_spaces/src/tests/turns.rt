//! Sessions that come in each other's way, and stops that an order gives.
ghost use Rattle.xod_session.specs.Calls.{IsFresh};
ghost use Rattle.xod_spaces.specs.Pairs.{PlayBoth};

use super::{Seats, finished, played, seated, turn};
use crate::{Planned, Trouble};
use std::alloc::Global;
use std::test::Fail;
use xod_base::{Bytes, Cause};
use xod_journal::{Local, Space};
use xod_session::{Next, Progress, Session};

const BLOCK: &[u8] =
    b"session a\ndo 3\nnew T as $x\ncount all T\ndone\nsession b\nbegin\nnew T as $y\ncommit\n";

/// Ordinary behind exclusive, and exclusive behind ordinary: who waits is asked again, and begins once the other ended. A
/// block whose flush conflicts is tried again with other rows, is given up behind its last try, and stops where it can't
/// be tried again.
#[test]
fn who_waits_or_conflicts_goes_on(rt: HostRuntime) -> Result<(), Fail> {
    let sixth = Planned {
        call: 5,
        trouble: Trouble::Refused(Cause::Device),
    };
    let rows: [(&[u8], &[u8], Option<Planned>, &[u8], &[u8], &[u8]); 5] = [
        (
            b"session a\nbegin exclusive\nnew T as $x\ncommit\nsession b\nbegin\nquery all T\nend\n",
            b"abababbba",
            None,
            b"Begin { mode: Exclusive } Stepped\nBegin { mode: Ordinary } Busy { holder: 1 }\nFlush Stepped\nBegin { mode: Ordinary } Busy { holder: 1 }\nEnd Stepped\nBegin { mode: Ordinary } Stepped\nEnd Stepped\nFinished Finished\nFinished Finished\n",
            b"2: at 0\n3: 0-0\n4: committed 1\n4: ended\n",
            b"6: at 1\n7: ids 0-0\n8: ended\n",
        ),
        (
            b"session a\nbegin\nsync\nend\nsession b\nbegin exclusive\nnew T as $x\ncommit\nbegin read\nquery all T\nend\n",
            b"abababbbbb",
            None,
            b"Begin { mode: Ordinary } Stepped\nBegin { mode: Exclusive } Busy { holder: 1 }\nSync Stepped\nBegin { mode: Exclusive } Busy { holder: 1 }\nEnd Stepped\nBegin { mode: Exclusive } Stepped\nFlush Stepped\nEnd Stepped\nBegin { mode: ReadOnly } Stepped\nEnd Stepped\n",
            b"2: at 0\n3: synced\n4: ended\n",
            b"6: at 0\n7: 0-0\n8: committed 1\n8: ended\n9: at 1\n10: ids 0-0\n11: ended\n",
        ),
        (
            BLOCK,
            b"abbbaaaaa",
            None,
            b"Begin { mode: Ordinary } Stepped\nBegin { mode: Ordinary } Stepped\nFlush Stepped\nEnd Stepped\nFlush Stepped\nRevert Stepped\nFlush Stepped\nEnd Stepped\nFinished Finished\n",
            b"2: at 0\n3: 0-0\n4: count 1\n5: conflict base 0 now 1\n5: at 1\n3: 0-1\n4: count 2\n5: committed 2\n5: ended\n",
            b"7: at 0\n8: 0-0\n9: committed 1\n9: ended\n",
        ),
        (
            b"session a\ndo 2\nnew T as $x\ncount all T\ndone\nsession b\nbegin\nnew T as $y\ncommit\nbegin\nnew T as $z\ncommit\n",
            b"abbbaabbbaaa",
            None,
            b"Begin { mode: Ordinary } Stepped\nBegin { mode: Ordinary } Stepped\nFlush Stepped\nEnd Stepped\nFlush Stepped\nRevert Stepped\nBegin { mode: Ordinary } Stepped\nFlush Stepped\nEnd Stepped\nFlush Stepped\nEnd Stepped\nFinished Finished\n",
            b"2: at 0\n3: 0-0\n4: count 1\n5: conflict base 0 now 1\n5: at 1\n3: 0-1\n4: count 2\n5: conflict base 1 now 2\n5: ended\n",
            b"7: at 0\n8: 0-0\n9: committed 1\n9: ended\n10: at 1\n11: 0-1\n12: committed 2\n12: ended\n",
        ),
        (
            BLOCK,
            b"abbbaaa",
            Some(sixth),
            b"Begin { mode: Ordinary } Stepped\nBegin { mode: Ordinary } Stepped\nFlush Stepped\nEnd Stepped\nFlush Stepped\nRevert Stopped { line: 5, cause: Device }\nFinished Finished\n",
            b"2: at 0\n3: 0-0\n4: count 1\n5: conflict base 0 now 1\n5: stop device\n",
            b"7: at 0\n8: 0-0\n9: committed 1\n9: ended\n",
        ),
    ];
    for (script, letters, shared, came, first, second) in rows {
        let run = played(rt.alloc(), script, letters, shared, None)?;
        assert_eq!(rt; run.came.as_slice(), came);
        assert_eq!(rt; run.said.as_slice(), first);
        assert_eq!(rt; run.first.as_slice(), first);
        assert_eq!(rt; run.second.as_slice(), second);
    }
    Ok(())
}

/// Takes a stop that the order gives; false where it can't be taken.
fn halted<O: Local, S: Space<Open = O>>(
    alloc: Global,
    space: &mut S,
    mine: &mut Session<O>,
    other: &Session<O>,
    line: u32,
    cause: Cause,
) -> bool
    requires both { PlayBoth O.tells O.txn O.faults (S.view space.old) mine.old other.now }
    requires fresh { IsFresh mine.old }
    ensures { PlayBoth O.tells O.txn O.faults (S.view space.new) mine.new other.now }
{
    if !mine.can_halt(line) {
        return false;
    }
    mine.prepare(alloc, Some(line));
    match mine.next() {
        Next::Stop { .. } | Next::Finished => return false,
        _ => {}
    }
    if !mine.can_halt(line) {
        return false;
    }
    mine.halt(space, line, cause);
    true
}

const HALTS: &[u8] =
    b"session a\nbegin\nnew T as $x\nset $x p 1\nflush\nnew T as $y\nend\nsession b\nbegin exclusive\nend\n";

/// Gives a stop to the first session after some of its turns. Answers whether it was taken, what the second one's turn
/// then came to, and the first one's lines.
fn halted_after(
    alloc: Global,
    steps: u32,
    line: u32,
    cause: Cause,
) -> Result<(bool, Progress, Bytes), Fail> {
    let Seats {
        mut space,
        mut first,
        mut second,
    } = seated(alloc, HALTS, None, None)?;
    for _ in 0..steps {
        let (_, progress) = turn(alloc, &mut space, &mut first, &second);
        let Progress::Stepped = progress else {
            return Err(Fail::from("a step was not taken"));
        };
    }
    let taken = halted(alloc, &mut space, &mut first, &second, line, cause);
    let (_, progress) = turn(alloc, &mut space, &mut second, &first);
    let (lines, _) = finished(&mut space, first, second);
    Ok((taken, progress, lines))
}

/// The private statements before the line are answered, and it is printed in the place of that line's answer. The
/// transaction is given back. Where no stop can be taken, the session is left, and its end stops it at its next line.
#[test]
fn a_stop_of_the_order_is_taken_up_to_the_next_step(rt: HostRuntime) -> Result<(), Fail> {
    let rows: [(u32, u32, Cause, bool, &[u8]); 8] = [
        (1, 3, Cause::Device, true, b"2: at 0\n3: stop device\n"),
        (
            1,
            4,
            Cause::Broken,
            true,
            b"2: at 0\n3: 0-0\n4: stop broken\n",
        ),
        (
            1,
            5,
            Cause::Damaged,
            true,
            b"2: at 0\n3: 0-0\n4: ok\n5: stop damaged\n",
        ),
        (
            2,
            5,
            Cause::Spent,
            true,
            b"2: at 0\n3: 0-0\n4: ok\n5: committed 1\n5: stop spent\n",
        ),
        (
            2,
            6,
            Cause::Memory,
            true,
            b"2: at 0\n3: 0-0\n4: ok\n5: committed 1\n6: stop memory\n",
        ),
        (1, 2, Cause::Device, false, b"2: at 0\n3: stop memory\n"),
        (1, 6, Cause::Device, false, b"2: at 0\n3: stop memory\n"),
        (
            2,
            4,
            Cause::Device,
            false,
            b"2: at 0\n3: 0-0\n4: ok\n5: committed 1\n6: stop memory\n",
        ),
    ];
    for (steps, line, cause, can, lines) in rows {
        let (taken, progress, said) = halted_after(rt.alloc(), steps, line, cause)?;
        let beside = if can {
            Progress::Stepped
        } else {
            Progress::Busy { holder: 1 }
        };
        assert_eq!(rt; taken, can, "at {line} after {steps}");
        assert_eq!(rt; progress, beside, "at {line} after {steps}");
        assert_eq!(rt; said.as_slice(), lines, "at {line} after {steps}");
    }
    Ok(())
}
