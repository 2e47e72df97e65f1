//! The texts of answers.
use super::{id, text};
use std::alloc::Global;
use std::test::Fail;
use xod_base::{
    ActAnswer, Bytes, Cause, FlushAnswer, IdList, LinkList, Memory, NameKind, Place, PropList,
    Reply, Shown, StmtError, Value,
};
use xod_print::{STEP_ROOM, STOP_ROOM, print_answer, print_step, print_stop};

fn push_steps(alloc: Global, out: &mut Bytes) -> Result<(), Memory> {
    let conflict = FlushAnswer::Conflict { base: 0, now: 12 };
    let committed = FlushAnswer::Committed {
        version: 7,
        fault: Some(Cause::Device),
    };
    let commit = u64::MAX;
    print_answer(alloc, out, 1, &Reply::At { commit })?;
    print_answer(alloc, out, 2, &Reply::Flushed(FlushAnswer::Nothing))?;
    print_answer(alloc, out, 3, &Reply::Flushed(committed))?;
    print_answer(alloc, out, 4, &Reply::Flushed(conflict))?;
    print_answer(alloc, out, 5, &Reply::Ended)?;
    print_answer(alloc, out, u32::MAX, &Reply::Synced)?;
    Ok(())
}

fn push_acts(alloc: Global, out: &mut Bytes) -> Result<(), Memory> {
    let made = ActAnswer::Made(id(4095, u32::MAX));
    print_answer(alloc, out, 1, &Reply::Acted(made))?;
    print_answer(alloc, out, 2, &Reply::Acted(ActAnswer::Changed))?;
    print_answer(alloc, out, 3, &Reply::Acted(ActAnswer::Same))?;
    print_answer(alloc, out, 4, &Reply::Count { number: 0 })?;
    Ok(())
}

/// Puts the line of each refusal at the end.
fn push_refusals(alloc: Global, out: &mut Bytes) -> Result<(), Memory> {
    let limit = 4096;
    for error in [
        StmtError::NoEntity { id: id(3, 0) },
        StmtError::ReadOnly,
        StmtError::TooMany {
            kind: NameKind::Kinds,
            limit,
        },
        StmtError::TooMany {
            kind: NameKind::Props,
            limit,
        },
        StmtError::TooMany {
            kind: NameKind::Links,
            limit,
        },
        StmtError::IdsSpent { kind: 9 },
        StmtError::TextTooLong { len: 1025 },
        StmtError::Device,
        StmtError::Damaged(Place { file: 0, at: 0 }),
        StmtError::Memory,
    ] {
        print_answer(alloc, out, 5, &Reply::Refused(error))?;
    }
    Ok(())
}

/// Puts the line of a stop for each cause at the end.
fn push_stops(alloc: Global, out: &mut Bytes) -> Result<(), Memory> {
    for cause in [
        Cause::Device,
        Cause::Broken,
        Cause::Damaged,
        Cause::Spent,
        Cause::Memory,
    ] {
        print_answer(alloc, out, 6, &Reply::Stop { cause })?;
    }
    Ok(())
}

const LINES: &str = "1: at 18446744073709551615
2: nothing
3: committed 7
4: conflict base 0 now 12
5: ended
4294967295: synced
1: 4095-4294967295
2: ok
3: same
4: count 0
5: refused no entity 3-0
5: refused read only
5: refused too many types 4096
5: refused too many properties 4096
5: refused too many links 4096
5: refused ids spent 9
5: refused text too long 1025
5: stop device
5: stop damaged
5: stop memory
6: stop device
6: stop broken
6: stop damaged
6: stop spent
6: stop memory
";

#[test]
fn answers_without_lists_are_printed_so(rt: HostRuntime) -> Result<(), Fail> {
    let mut out = Bytes::new(rt.alloc());
    push_steps(rt.alloc(), &mut out)?;
    push_acts(rt.alloc(), &mut out)?;
    push_refusals(rt.alloc(), &mut out)?;
    push_stops(rt.alloc(), &mut out)?;
    assert_eq!(rt; out.as_slice(), LINES.as_bytes());
    Ok(())
}

/// Properties by rising name.
fn props(alloc: Global) -> Result<PropList, Fail> {
    let mut props = PropList::new(alloc);
    props.push((text(alloc, b"B")?, Value::Flag(false)))?;
    let said = text(alloc, b"say \"\\\"")?;
    props.push((text(alloc, b"_")?, Value::Text(said)))?;
    props.push((text(alloc, b"a")?, Value::Int(-1)))?;
    Ok(props)
}

/// Links by rising name and target.
fn links(alloc: Global) -> Result<LinkList, Fail> {
    let mut links = LinkList::new(alloc);
    links.push((text(alloc, b"l")?, id(0, 9)))?;
    links.push((text(alloc, b"l")?, id(0, 10)))?;
    links.push((text(alloc, b"m")?, id(0, 0)))?;
    Ok(links)
}

/// Puts the line of an entity that is shown at the end.
fn push_shown(alloc: Global, out: &mut Bytes) -> Result<(), Fail> {
    let shown = Shown {
        id: id(0, 1),
        kind: text(alloc, b"T")?,
        props: props(alloc)?,
        links: links(alloc)?,
    };
    print_answer(alloc, out, 3, &Reply::Shown(shown))?;
    Ok(())
}

/// Puts the lines of two lists of ids at the end.
fn push_ids(alloc: Global, out: &mut Bytes) -> Result<(), Memory> {
    print_answer(alloc, out, 1, &Reply::Ids(IdList::new(alloc)))?;
    let mut ids = IdList::new(alloc);
    ids.push(id(1, 2))?;
    ids.push(id(0, 30))?;
    print_answer(alloc, out, 2, &Reply::Ids(ids))?;
    Ok(())
}

#[test]
fn answers_with_lists_are_printed_so(rt: HostRuntime) -> Result<(), Fail> {
    let mut out = Bytes::new(rt.alloc());
    push_ids(rt.alloc(), &mut out)?;
    push_shown(rt.alloc(), &mut out)?;
    let name = text(rt.alloc(), b"x_1")?;
    print_answer(rt.alloc(), &mut out, 4, &Reply::Unset { name })?;
    let wanted =
        "1: ids\n2: ids 1-2 0-30\n3: 0-1 T B=false _=\"say \\\"\\\\\\\"\" a=-1 l>0-9 l>0-10 m>0-0\n4: refused unset $x_1\n";
    assert_eq!(rt; out.as_slice(), wanted.as_bytes());
    Ok(())
}

#[test]
fn the_longest_step_and_stop_have_room(rt: HostRuntime) -> Result<(), Fail> {
    let mut out = Vec::with_capacity(rt.alloc(), STEP_ROOM + STOP_ROOM)?;
    let conflict = FlushAnswer::Conflict {
        base: u64::MAX - 1,
        now: u64::MAX,
    };
    print_step(&mut out, u32::MAX, &Reply::Flushed(conflict));
    print_stop(&mut out, u32::MAX, Cause::Damaged);
    let wanted =
        b"4294967295: conflict base 18446744073709551614 now 18446744073709551615\n4294967295: stop damaged\n";
    assert_eq!(rt; out.as_slice(), wanted.as_slice());
    Ok(())
}
