//! Each cause at each step that can meet it, behind a commit, and at a private statement.
use super::{joined, played};
use crate::{Planned, Trouble};
use std::test::Fail;
use xod_base::Cause;

const STEPS: &[u8] =
    b"session a\nbegin\nnew T as $x\nflush\nrevert\nsync\nend\nsession b\nsync\nbegin exclusive\nend\n";

/// A step of the first session by the number of its call: a turn for each call before it, and what these came to; what it
/// comes to, and the session's lines, each up to the cause; and the newest commit.
type Call = (
    u32,
    &'static [u8],
    &'static [u8],
    &'static [u8],
    &'static [u8],
    &'static [u8],
);

const CALLS: [Call; 5] = [
    (
        0,
        b"",
        b"",
        b"Begin { mode: Ordinary } Stopped { line: 2, cause: ",
        b"2: stop ",
        b"0",
    ),
    (
        1,
        b"a",
        b"Begin { mode: Ordinary } Stepped\n",
        b"Flush Stopped { line: 4, cause: ",
        b"2: at 0\n3: 0-0\n4: stop ",
        b"0",
    ),
    (
        2,
        b"aa",
        b"Begin { mode: Ordinary } Stepped\nFlush Stepped\n",
        b"Revert Stopped { line: 5, cause: ",
        b"2: at 0\n3: 0-0\n4: committed 1\n5: stop ",
        b"1",
    ),
    (
        3,
        b"aaa",
        b"Begin { mode: Ordinary } Stepped\nFlush Stepped\nRevert Stepped\n",
        b"Sync Stopped { line: 6, cause: ",
        b"2: at 0\n3: 0-0\n4: committed 1\n5: at 1\n6: stop ",
        b"1",
    ),
    (
        4,
        b"aaaa",
        b"Begin { mode: Ordinary } Stepped\nFlush Stepped\nRevert Stepped\nSync Stepped\n",
        b"End Stopped { line: 7, cause: ",
        b"2: at 0\n3: 0-0\n4: committed 1\n5: at 1\n6: synced\n7: stop ",
        b"1",
    ),
];

/// The other session goes on, also with an exclusive transaction: that of the stopped one was given back.
const GOES_ON: &[u8] =
    b" }\nFinished Finished\nSync Stepped\nBegin { mode: Exclusive } Stepped\nEnd Stepped\n";

/// A number can be spent at a flush alone, and an end can want memory alone. The line of the step is its stop.
#[test]
fn a_step_stops_for_each_cause_that_it_can_meet(rt: HostRuntime) -> Result<(), Fail> {
    let alloc = rt.alloc();
    let causes: [(Cause, u32, u32, &[u8], &[u8]); 4] = [
        (Cause::Device, 0, 3, b"Device", b"device\n"),
        (Cause::Damaged, 0, 3, b"Damaged", b"damaged\n"),
        (Cause::Spent, 1, 1, b"Spent", b"spent\n"),
        (Cause::Memory, 0, 4, b"Memory", b"memory\n"),
    ];
    for (cause, least, most, name, word) in causes {
        let trouble = Trouble::Refused(cause);
        for (call, turns, before, comes, lines, commit) in CALLS {
            if call < least || call > most {
                continue;
            }
            let letters = joined(alloc, &[turns, b"aabbb"])?;
            let came = joined(alloc, &[before, comes, name, GOES_ON])?;
            let first = joined(alloc, &[lines, word])?;
            let second = joined(alloc, &[b"9: synced\n10: at ", commit, b"\n11: ended\n"])?;
            let shared = Some(Planned { call, trouble });
            let run = played(alloc, STEPS, letters.as_slice(), shared, None)?;
            assert_eq!(rt; run.came.as_slice(), came.as_slice());
            assert_eq!(rt; run.first.as_slice(), first.as_slice());
            assert_eq!(rt; run.second.as_slice(), second.as_slice());
        }
    }
    Ok(())
}

/// A write fails in a step of the second session, and the next step of the first one finds the space broken.
#[test]
fn a_step_stops_where_the_space_was_broken_before(rt: HostRuntime) -> Result<(), Fail> {
    let alloc = rt.alloc();
    let trouble = Trouble::Breaks;
    for (call, turns, before, comes, lines, _) in CALLS {
        if call == 4 {
            continue;
        }
        let letters = joined(alloc, &[turns, b"baa"])?;
        let breaks = b"Sync Stopped { line: 9, cause: Device }\n";
        let came = joined(
            alloc,
            &[before, breaks, comes, b"Broken }\nFinished Finished\n"],
        )?;
        let first = joined(alloc, &[lines, b"broken\n"])?;
        let shared = Some(Planned { call, trouble });
        let run = played(alloc, STEPS, letters.as_slice(), shared, None)?;
        assert_eq!(rt; run.came.as_slice(), came.as_slice());
        assert_eq!(rt; run.first.as_slice(), first.as_slice());
        assert_eq!(rt; run.second.as_slice(), b"9: stop device\n".as_slice());
    }
    Ok(())
}

const READS: &[u8] = b"session b\nbegin\nquery all T\nend\n";

/// The commit stands and is said, and no statement behind it is answered.
#[test]
fn a_session_stops_behind_a_commit_where_it_cannot_go_on(rt: HostRuntime) -> Result<(), Fail> {
    let alloc = rt.alloc();
    let scripts: [&[u8]; 3] = [
        b"session a\nbegin\nnew T as $x\nflush\nnew T as $y\nend\n",
        b"session a\nbegin\nnew T as $x\ncommit\nbegin\nend\n",
        b"session a\ndo 2\nnew T as $x\ndone\nbegin\nend\n",
    ];
    let causes: [(Cause, &[u8], &[u8]); 2] = [
        (Cause::Device, b"Device", b"device\n"),
        (Cause::Memory, b"Memory", b"memory\n"),
    ];
    for (cause, name, word) in causes {
        let trouble = Trouble::Faulted(cause);
        for script in scripts {
            let script = joined(alloc, &[script, READS])?;
            let stops = b"Begin { mode: Ordinary } Stepped\nFlush Stopped { line: 4, cause: ";
            let reads = b" }\nFinished Finished\nBegin { mode: Ordinary } Stepped\nEnd Stepped\n";
            let came = joined(alloc, &[stops, name, reads])?;
            let first = joined(alloc, &[b"2: at 0\n3: 0-0\n4: committed 1\n4: stop ", word])?;
            let shared = Some(Planned { call: 1, trouble });
            let run = played(alloc, script.as_slice(), b"aaabb", shared, None)?;
            assert_eq!(rt; run.came.as_slice(), came.as_slice());
            assert_eq!(rt; run.first.as_slice(), first.as_slice());
            assert_eq!(rt;
                run.second.as_slice(),
                b"8: at 1\n9: ids 0-0\n10: ended\n".as_slice()
            );
        }
    }
    Ok(())
}

const PRIVATE: &[u8] =
    b"session a\nbegin\nnew T as $x\nset $x p 1\nshow $x\nquery all T\nend\nsession b\nbegin exclusive\nend\n";

/// The stop is what the session does next, and it names the line of the statement.
#[test]
fn a_statement_that_is_not_answered_stops_at_its_own_line(rt: HostRuntime) -> Result<(), Fail> {
    let alloc = rt.alloc();
    let causes: [(Cause, &[u8], &[u8]); 3] = [
        (Cause::Device, b"Device", b"device\n"),
        (Cause::Damaged, b"Damaged", b"damaged\n"),
        (Cause::Memory, b"Memory", b"memory\n"),
    ];
    let rows: [(u32, &[u8], &[u8]); 4] = [
        (0, b"3", b"2: at 0\n3: stop "),
        (1, b"4", b"2: at 0\n3: 0-0\n4: stop "),
        (2, b"5", b"2: at 0\n3: 0-0\n4: ok\n5: stop "),
        (3, b"6", b"2: at 0\n3: 0-0\n4: ok\n5: 0-0 T p=1\n6: stop "),
    ];
    for (cause, name, word) in causes {
        let trouble = Trouble::Refused(cause);
        for (call, line, lines) in rows {
            let next = joined(alloc, &[b"Stop { line: ", line, b", cause: ", name])?;
            let stopped = joined(alloc, &[b" } Stopped { line: ", line, b", cause: ", name])?;
            let begins = b"Begin { mode: Ordinary } Stepped\n";
            let goes_on = b" }\nFinished Finished\nBegin { mode: Exclusive } Stepped\n";
            let came = joined(
                alloc,
                &[begins, next.as_slice(), stopped.as_slice(), goes_on],
            )?;
            let first = joined(alloc, &[lines, word])?;
            let private = Some(Planned { call, trouble });
            let run = played(alloc, PRIVATE, b"aaab", None, private)?;
            assert_eq!(rt; run.came.as_slice(), came.as_slice());
            assert_eq!(rt; run.first.as_slice(), first.as_slice());
        }
    }
    Ok(())
}
