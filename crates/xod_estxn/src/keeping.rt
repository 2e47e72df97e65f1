//! Changes that a transaction keeps, with what they write: both, or neither.
ghost use Rattle.std.specs.Prelude.{◌≡◌, ◌++◌, is_ok, if◌then◌else◌};
ghost use Rattle.xod_overlay.specs.Marks.{all_touching, touched};

use std::alloc::Global;
use xod_acts::Plan;
use xod_base::Memory;
use xod_journal::{ChangeList, RowChange};
use xod_overlay::{Overlay, WriteList};

/// Puts changes at the end of a list and their writes into an overlay. A refusal leaves both as they were.
fn keep_in(
    list: &mut Vec<RowChange>,
    own: &mut Overlay,
    alloc: Global,
    changes: Vec<RowChange>,
    writes: WriteList,
) -> Result<(), Memory>
    ensures changes { list.new.items ≡ (if is_ok result then list.old.items ++ changes.items else list.old.items) }
    ensures touches { touched own.new ≡ (if is_ok result then all_touching (touched own.old) writes else touched own.old) }
{
    list.reserve(changes.len())?;
    own.write_all(alloc, writes)?;
    let mut more = changes;
    let Ok(()) = list.append(&mut more) else {
        // Room was made for them.
        unreachable!();
    };
    Ok(())
}

/// Keeps the changes of a plan and what they write. A refusal leaves all as it was.
pub(crate) fn keep(
    changes: &mut ChangeList,
    own: &mut Overlay,
    alloc: Global,
    plan: Plan,
) -> Result<(), Memory>
    ensures changes { changes.new ≡ (if is_ok result then changes.old ++ plan.changes else changes.old) }
    ensures touches { touched own.new ≡ (if is_ok result then all_touching (touched own.old) plan.writes else touched own.old) }
{
    let mut list = std::mem::replace(changes, ChangeList::new(alloc)).into_vec();
    let kept = keep_in(&mut list, own, alloc, plan.changes.into_vec(), plan.writes);
    *changes = ChangeList::from_vec(list);
    kept
}
