//! The path of a cursor: branches of which children are left, each below a child of the one before it.
ghost use Rattle.std.specs.Prelude.{◌≡◌, ◌≤◌, ◌<◌, ◌+◌, ◌++◌, ◌∷◌, [], Option, Some, OnOk, OnErr, IfSome, is_ok, if◌then◌else◌};
ghost use Rattle.std.specs.Option.{option_to_list};
ghost use Rattle.std.specs.Vec.{vec_len, vec_capacity};
ghost use Rattle.xod_block.specs.declared.address.Address.{Address};
ghost use Rattle.xod_block.specs.Maps.{RecordsAt, joined};
ghost use Rattle.xod_block.specs.Records.{Link};
ghost use Rattle.xod_cursor.specs.Cursors.{IsNextChild, MovesDown, StandsAt, StandsLeft, StandsOn, entries_at, last_of, left_entries, path_entries, rung_entries};
ghost use Rattle.xod_cursor.specs.declared.rung.Rung.{Rung};

use crate::rung::Rung;
use xod_base::Memory;
use xod_block::link_count;

/// Puts what is left of a branch at the end of a path that has room for it.
fn put_reserved(path: &mut Vec<Rung>, left: Option<Rung>)
    requires { vec_len path.old < vec_capacity path.old }
    ensures items { path.new.items ≡ path.old.items ++ option_to_list left }
    ensures len { vec_len path.new ≤ vec_len path.old + 1 }
    ensures room { vec_capacity path.new ≡ vec_capacity path.old }
{
    if let Some(rung) = left {
        path.push_reserved(rung);
    }
}

/// Puts what is left of a branch at the end of a path. A refusal changes nothing.
pub fn put(path: &mut Vec<Rung>, left: Option<Rung>) -> Result<(), Memory>
    ensures { path.new.items ≡ (if is_ok result
        then path.old.items ++ option_to_list left else path.old.items) }
{
    let Some(rung) = left else {
        return Ok(());
    };
    path.push(rung)?;
    Ok(())
}

/// What is left of a branch behind its next child.
fn behind_child(rung: Rung) -> Option<Rung>
    ensures entries { (records : RecordsAt) (child : Link) → IsNextChild rung child
        → rung_entries records rung ≡ joined
        (entries_at records (rung.front ++ child.0 ∷ []) child.1) (left_entries records result) }
    ensures stands { (records : RecordsAt) (root : Option Address) → StandsAt records root rung
        → StandsLeft records root result }
{
    let Rung {
        at,
        front,
        links,
        place,
    } = rung;
    let count = link_count(links.as_slice());
    let place = place + 1;
    if place >= count {
        return None;
    }
    Some(Rung {
        at,
        front,
        links,
        place,
    })
}

/// Moves the last branch of a path behind its next child, or leaves it where that was the last one.
fn leave_child(path: &mut Vec<Rung>)
    ensures entries { (records : RecordsAt) (rung : Rung) (child : Link)
        → last_of path.old.items ≡ Some rung → IsNextChild rung child
        → path_entries records path.old.items ≡ joined
        (entries_at records (rung.front ++ child.0 ∷ []) child.1)
        (path_entries records path.new.items) }
    ensures stands { (records : RecordsAt) (root : Option Address)
        → StandsOn records root path.old.items → StandsOn records root path.new.items }
    ensures len { vec_len path.new ≤ vec_len path.old }
    ensures room { vec_capacity path.new ≡ vec_capacity path.old }
{
    let Some(rung) = path.pop() else {
        return;
    };
    put_reserved(path, behind_child(rung));
}

/// Moves the last branch of a path behind its next child, and puts what is left of that child at the end. A refusal
/// changes nothing.
pub fn move_down(path: &mut Vec<Rung>, left: Option<Rung>) -> Result<(), Memory>
    ensures moves { (records : RecordsAt) (rung : Rung) (child : Link)
        → last_of path.old.items ≡ Some rung → IsNextChild rung child
        → OnOk result (MovesDown records rung child left path.old.items path.new.items) }
    ensures last { OnOk result (IfSome left (λ rung. last_of path.new.items ≡ Some rung)) }
    ensures stands { (records : RecordsAt) (root : Option Address)
        → StandsOn records root path.old.items → StandsLeft records root left
        → OnOk result (StandsOn records root path.new.items) }
    ensures err { OnErr result (path.new.items ≡ path.old.items) }
{
    let Some(below) = left else {
        leave_child(path);
        return Ok(());
    };
    path.reserve(1)?;
    leave_child(path);
    path.push_reserved(below);
    Ok(())
}
