//! The transcript: each session with its lines, the totals, and the journal as an order.
//!
//! The rule stands in `xod_session`, in `specs/Transcripts.antt`.
ghost use Rattle.std.specs.Prelude.{◌≡◌, ◌++◌, ◌∷◌, OnOk, map};
ghost use Rattle.std.specs.List.{flat_map};
ghost use Rattle.xod_lang.specs.declared.script.Turned.{Turned};
ghost use Rattle.xod_print.specs.Texts.{cause_text};
ghost use Rattle.xod_session.specs.Transcripts.{item_of, item_text, name_of as name_with_number, order_text, total_text, turned_of, turned_text};

use std::alloc::Global;
use xod_base::{Bytes, Cause, Memory, Text};
use xod_journal::{JournalEntry, Step};

/// Puts the totals at the end.
pub fn push_total(
    alloc: Global,
    out: &mut Bytes,
    commit: u64,
    hits: u128,
    misses: u128,
    files: u64,
) -> Result<(), Memory>
    ensures { OnOk result (out.new ≡ out.old ++ total_text commit hits misses files) }
{
    let text = format!(in alloc;
        "total commit {commit} hits {hits} misses {misses} files {files}\n"
    )?;
    out.extend(text.as_bytes())?;
    Ok(())
}

fn push_cause(out: &mut Bytes, cause: Cause) -> Result<(), Memory>
    ensures { OnOk result (out.new ≡ out.old ++ cause_text cause) }
{
    match cause {
        Cause::Device => out.extend(b"device"),
        Cause::Broken => out.extend(b"broken"),
        Cause::Damaged => out.extend(b"damaged"),
        Cause::Spent => out.extend(b"spent"),
        Cause::Memory => out.extend(b"memory"),
    }
}

/// Puts the line and the cause of a stop at the end.
fn push_stop(alloc: Global, out: &mut Bytes, line: u32, cause: Cause) -> Result<(), Memory>
    ensures { OnOk result (out.new ≡ out.old ++ turned_text (Turned.Stop line cause)) }
{
    let text = format!(in alloc; "stop {line} ")?;
    out.extend(text.as_bytes())?;
    push_cause(out, cause)?;
    Ok(())
}

/// Puts what is printed of a step at the end.
fn push_step(alloc: Global, out: &mut Bytes, step: &Step) -> Result<(), Memory>
    ensures { OnOk result (out.new ≡ out.old ++ turned_text (turned_of step.now)) }
{
    match step {
        Step::Begin { .. } => out.extend(b"begin"),
        Step::Flush { .. } => out.extend(b"flush"),
        Step::Revert => out.extend(b"revert"),
        Step::End => out.extend(b"end"),
        Step::Sync => out.extend(b"sync"),
        Step::Stop { line, cause, .. } => push_stop(alloc, out, *line, *cause),
    }
}

/// Puts an entry at the end, as an item of an order: the names are those of the sessions in the order of the input.
fn push_entry(
    alloc: Global,
    out: &mut Bytes,
    names: &[Text],
    entry: &JournalEntry,
) -> Result<(), Memory>
    ensures { OnOk result (out.new ≡ out.old ++ item_text (item_of names.now entry.now)) }
{
    out.extend(b"turn ")?;
    out.extend(name_of(names, entry.actor))?;
    out.push(b' ')?;
    push_step(alloc, out, &entry.step)?;
    out.push(b'\n')?;
    Ok(())
}

/// The name of the session with a number, which begin at 1.
fn name_of(names: &[Text], actor: u32) -> &[u8]
    ensures { result.now ≡ name_with_number 1 names.now actor }
{
    match (actor as usize).checked_sub(1) {
        None => b"",
        Some(at) => match names.get(at) {
            None => b"",
            Some(name) => name.as_bytes(),
        },
    }
}

/// Puts a journal at the end, as an order.
pub fn push_order(
    alloc: Global,
    out: &mut Bytes,
    names: &[Text],
    journal: &[JournalEntry],
) -> Result<(), Memory>
    ensures { OnOk result (out.new
        ≡ out.old ++ order_text (map (item_of names.now) journal.now)) }
{
    out.extend(b"order\n")?;
    for entry in journal {
        push_entry(alloc, out, names, entry)?;
    }
    Ok(())
}
