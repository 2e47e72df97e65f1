//! The newest root of a store that is durable.
//!
//! Each step is a function: it answers the first bad place, or goes on to the next step.
ghost use Rattle.std.specs.Prelude.{◌≡◌, ◌<◌, ◌≤◌, ◌+◌, ◌-◌, ◌*◌, ◌^◌, [], true, pred, Ok, Err, Some, IfOk, IfSome, OnOk, IsErrOf, IsSome, IsTrue};
ghost use Rattle.std.specs.Option.{option_map};
ghost use Rattle.std.specs.FinMap.{entries, get, keys};
ghost use Rattle.xod_base.specs.Causes.{Rose};
ghost use Rattle.xod_base.specs.declared.causes.Place.{Place};
ghost use Rattle.xod_volume.specs.Files.{bytes_of, size_of};
ghost use Rattle.xod_volume.specs.declared.volume.VolumeError.{VolumeError};
ghost use Rattle.xod_log.specs.Ends.{body_of, ends_of, numbers, numbers_at};
ghost use Rattle.xod_audit.specs.Audits.{kinds_of};
ghost use Rattle.xod_recover.specs.declared.error.OpenError.{OpenError};
ghost use Rattle.xod_recover.specs.Check.{are_trees, check, no_newest, rooted_in, trees_under};
ghost use Rattle.xod_recover.specs.Found.{HasRoot, IsRooted, newest_of};
ghost use Rattle.xod_recover.specs.Reads.{OnlyReads};
ghost use Rattle.xod_recover.specs.Rooted.{SpellsRoot};
ghost use Rattle.xod_recover.specs.Steps.{by_back, by_body, by_root, root_bytes};

use crate::device::{read_part, size};
use crate::ends::{Marked, last_mark};
use crate::enter::body_file;
use crate::error::OpenError;
use crate::reach::judge_reached;
use crate::root::root_in;
use crate::used::{ends_file, find_used};
use std::alloc::Global;
use xod_base::{NameList, Place};
use xod_block::Address;
use xod_root::RootList;
use xod_volume::{Volume, VolumeError};

/// How many bytes the longest root record has: one that lists 32 trees of 13 bytes.
const LONGEST_ROOT: u32 = 427;

/// The newest root that is durable: its commit and the roots of its trees; the names of the types of
/// its rows, by their numbers; the log file that it stands in, where its block ends, how many of that
/// file's marks are open, and how far before the end the root begins. All are 0 or empty in an empty
/// store.
#[derive(Debug, Drop)]
pub struct Found {
    pub commit: u64,
    pub roots: RootList,
    pub kinds: NameList,
    pub file: u32,
    pub end: u64,
    pub marks: u64,
    pub back: u32,
}

/// What is found in an empty store.
fn nothing(alloc: Global) -> Found
    ensures newest { newest_of result ≡ no_newest }
    ensures kinds { result.kinds ≡ [] }
{
    Found {
        commit: 0,
        roots: RootList::new(),
        kinds: NameList::new(alloc),
        file: 0,
        end: 0,
        marks: 0,
        back: 0,
    }
}

/// The root that exactly the last bytes before the end are, where they are one.
fn root_before<V: Volume>(
    alloc: Global,
    volume: &mut V,
    marked: Marked,
) -> Result<Option<(u64, RootList)>, VolumeError>
    requires has_body { IsTrue (V.tells volume.old)
        → IsSome (get (V.files volume.old) (body_of marked.file)) }
    requires long { IsTrue (V.tells volume.old)
        → marked.end ≤ size_of (V.files volume.old) (body_of marked.file) }
    requires back { marked.back ≤ marked.end }
    ensures root { IsTrue (V.tells volume.old) → IfOk result (λ found.
        option_map (λ root. (root.0, entries root.1)) found
        ≡ rooted_in (root_bytes (V.files volume.old) marked)) }
    ensures numbered { IfOk result (λ found. IfSome found (λ root.
        are_trees (entries root.1) ≡ true)) }
    ensures spelled { IsTrue (V.tells volume.old) → IfOk result (λ found. IfSome found (λ root.
        SpellsRoot root.0 root.1 (root_bytes (V.files volume.old) marked))) }
    ensures failed { IsErrOf result VolumeError.Failed
        → Rose (V.faults volume.old) (V.faults volume.new) }
    ensures unfailed { OnOk result (V.faults volume.new ≡ V.faults volume.old) }
    ensures memory { IsErrOf result VolumeError.Memory
        → V.faults volume.new ≡ V.faults volume.old }
    ensures reads { OnlyReads V.tells V.files V.moment V.may_leave V.leases V.refs V.faults
        volume.old volume.new }
{
    if marked.back > LONGEST_ROOT {
        return Ok(None);
    }
    let at = marked.end - u64::from(marked.back);
    let bytes = read_part(
        alloc,
        volume,
        body_file(marked.file),
        at,
        marked.back as usize,
    )?;
    Ok(root_in(bytes.as_slice()))
}

/// All that the root reaches, and the rows that its trees are the tables of.
fn judge_trees<V: Volume>(
    alloc: Global,
    volume: &mut V,
    numbers: &[u64],
    marked: Marked,
    rooted: (u64, RootList),
) -> Result<Found, OpenError>
    requires listed { IsTrue (V.tells volume.old) → numbers.now ≡ keys (V.files volume.old) }
    requires long { IsTrue (V.tells volume.old)
        → marked.end ≤ size_of (V.files volume.old) (body_of marked.file) }
    requires numbered { are_trees (entries rooted.1) ≡ true }
    requires spelled { IsTrue (V.tells volume.old)
        → SpellsRoot rooted.0 rooted.1 (root_bytes (V.files volume.old) marked) }
    requires back { marked.back ≤ marked.end }
    requires room { 13 * (marked.mark + 2) < 2 ^ 64 }
    ensures found { IsTrue (V.tells volume.old) → IfOk result (λ found.
        by_root (V.files volume.old) marked (Some (rooted.0, entries rooted.1))
        ≡ Ok (newest_of found)) }
    ensures kinds { IsTrue (V.tells volume.old) → IfOk result (λ found.
        kinds_of (trees_under (V.files volume.old) (newest_of found)) ≡ Some found.kinds) }
    ensures damaged { IsTrue (V.tells volume.old) → (place : Place)
        → result ≡ Err (OpenError.Damaged place)
        → by_root (V.files volume.old) marked (Some (rooted.0, entries rooted.1)) ≡ Err place }
    ensures device_only_after_a_fault { result ≡ Err OpenError.Device
        → Rose (V.faults volume.old) (V.faults volume.new) }
    ensures unfailed { OnOk result (V.faults volume.new ≡ V.faults volume.old) }
    ensures memory { result ≡ Err OpenError.Memory → V.faults volume.new ≡ V.faults volume.old }
    ensures room { IfOk result (λ found. 13 * (found.marks + 1) < 2 ^ 64) }
    ensures rooted { IfOk result IsRooted }
    ensures root { IsTrue (V.tells volume.old) → IfOk result (λ found.
        HasRoot found (V.files volume.old)) }
    ensures reads { OnlyReads V.tells V.files V.moment V.may_leave V.leases V.refs V.faults
        volume.old volume.new }
{
    let (commit, roots) = rooted;
    let root = Address {
        file: marked.file,
        at: marked.end - u64::from(marked.back),
    };
    let kinds = judge_reached(alloc, volume, numbers, root, marked.end, &roots)?;
    Ok(Found {
        commit,
        roots,
        kinds,
        file: marked.file,
        end: marked.end,
        marks: marked.mark + 1,
        back: marked.back,
    })
}

/// The root of exactly the last bytes before the end.
fn judge_root<V: Volume>(
    alloc: Global,
    volume: &mut V,
    numbers: &[u64],
    marked: Marked,
) -> Result<Found, OpenError>
    requires listed { IsTrue (V.tells volume.old) → numbers.now ≡ keys (V.files volume.old) }
    requires has_body { IsTrue (V.tells volume.old)
        → IsSome (get (V.files volume.old) (body_of marked.file)) }
    requires long { IsTrue (V.tells volume.old)
        → marked.end ≤ size_of (V.files volume.old) (body_of marked.file) }
    requires back { marked.back ≤ marked.end }
    requires room { 13 * (marked.mark + 2) < 2 ^ 64 }
    ensures found { IsTrue (V.tells volume.old) → IfOk result (λ found.
        by_root (V.files volume.old) marked (rooted_in (root_bytes (V.files volume.old) marked))
        ≡ Ok (newest_of found)) }
    ensures kinds { IsTrue (V.tells volume.old) → IfOk result (λ found.
        kinds_of (trees_under (V.files volume.old) (newest_of found)) ≡ Some found.kinds) }
    ensures damaged { IsTrue (V.tells volume.old) → (place : Place)
        → result ≡ Err (OpenError.Damaged place)
        → by_root (V.files volume.old) marked (rooted_in (root_bytes (V.files volume.old) marked))
        ≡ Err place }
    ensures device_only_after_a_fault { result ≡ Err OpenError.Device
        → Rose (V.faults volume.old) (V.faults volume.new) }
    ensures unfailed { OnOk result (V.faults volume.new ≡ V.faults volume.old) }
    ensures memory { result ≡ Err OpenError.Memory → V.faults volume.new ≡ V.faults volume.old }
    ensures room { IfOk result (λ found. 13 * (found.marks + 1) < 2 ^ 64) }
    ensures rooted { IfOk result IsRooted }
    ensures root { IsTrue (V.tells volume.old) → IfOk result (λ found.
        HasRoot found (V.files volume.old)) }
    ensures reads { OnlyReads V.tells V.files V.moment V.may_leave V.leases V.refs V.faults
        volume.old volume.new }
{
    match root_before(alloc, volume, marked)? {
        None => Err(OpenError::Damaged(Place {
            file: body_file(marked.file),
            at: marked.end - u64::from(marked.back),
        })),
        Some(rooted) => judge_trees(alloc, volume, numbers, marked, rooted),
    }
}

/// How far before the end it begins.
fn judge_back<V: Volume>(
    alloc: Global,
    volume: &mut V,
    numbers: &[u64],
    marked: Marked,
) -> Result<Found, OpenError>
    requires listed { IsTrue (V.tells volume.old) → numbers.now ≡ keys (V.files volume.old) }
    requires has_body { IsTrue (V.tells volume.old)
        → IsSome (get (V.files volume.old) (body_of marked.file)) }
    requires long { IsTrue (V.tells volume.old)
        → marked.end ≤ size_of (V.files volume.old) (body_of marked.file) }
    requires room { 13 * (marked.mark + 2) < 2 ^ 64 }
    ensures found { IsTrue (V.tells volume.old) → IfOk result (λ found.
        by_back (V.files volume.old) marked ≡ Ok (newest_of found)) }
    ensures kinds { IsTrue (V.tells volume.old) → IfOk result (λ found.
        kinds_of (trees_under (V.files volume.old) (newest_of found)) ≡ Some found.kinds) }
    ensures damaged { IsTrue (V.tells volume.old) → (place : Place)
        → result ≡ Err (OpenError.Damaged place)
        → by_back (V.files volume.old) marked ≡ Err place }
    ensures device_only_after_a_fault { result ≡ Err OpenError.Device
        → Rose (V.faults volume.old) (V.faults volume.new) }
    ensures unfailed { OnOk result (V.faults volume.new ≡ V.faults volume.old) }
    ensures memory { result ≡ Err OpenError.Memory → V.faults volume.new ≡ V.faults volume.old }
    ensures room { IfOk result (λ found. 13 * (found.marks + 1) < 2 ^ 64) }
    ensures rooted { IfOk result IsRooted }
    ensures root { IsTrue (V.tells volume.old) → IfOk result (λ found.
        HasRoot found (V.files volume.old)) }
    ensures reads { OnlyReads V.tells V.files V.moment V.may_leave V.leases V.refs V.faults
        volume.old volume.new }
{
    if marked.end < u64::from(marked.back) {
        return Err(OpenError::Damaged(Place {
            file: ends_file(marked.file),
            at: 13 * marked.mark,
        }));
    }
    judge_root(alloc, volume, numbers, marked)
}

/// The body, which is as long as the last open mark says at least.
fn judge_body<V: Volume>(
    alloc: Global,
    volume: &mut V,
    numbers: &[u64],
    marked: Marked,
) -> Result<Found, OpenError>
    requires listed { IsTrue (V.tells volume.old) → numbers.now ≡ keys (V.files volume.old) }
    requires has_body { IsTrue (V.tells volume.old)
        → IsSome (get (V.files volume.old) (body_of marked.file)) }
    requires room { 13 * (marked.mark + 2) < 2 ^ 64 }
    ensures found { IsTrue (V.tells volume.old) → IfOk result (λ found.
        by_body (V.files volume.old) marked ≡ Ok (newest_of found)) }
    ensures kinds { IsTrue (V.tells volume.old) → IfOk result (λ found.
        kinds_of (trees_under (V.files volume.old) (newest_of found)) ≡ Some found.kinds) }
    ensures damaged { IsTrue (V.tells volume.old) → (place : Place)
        → result ≡ Err (OpenError.Damaged place)
        → by_body (V.files volume.old) marked ≡ Err place }
    ensures device_only_after_a_fault { result ≡ Err OpenError.Device
        → Rose (V.faults volume.old) (V.faults volume.new) }
    ensures unfailed { OnOk result (V.faults volume.new ≡ V.faults volume.old) }
    ensures memory { result ≡ Err OpenError.Memory → V.faults volume.new ≡ V.faults volume.old }
    ensures room { IfOk result (λ found. 13 * (found.marks + 1) < 2 ^ 64) }
    ensures rooted { IfOk result IsRooted }
    ensures root { IsTrue (V.tells volume.old) → IfOk result (λ found.
        HasRoot found (V.files volume.old)) }
    ensures reads { OnlyReads V.tells V.files V.moment V.may_leave V.leases V.refs V.faults
        volume.old volume.new }
{
    let body = body_file(marked.file);
    let length = size(volume, body)?;
    if length < marked.end {
        return Err(OpenError::Damaged(Place {
            file: body,
            at: length,
        }));
    }
    judge_back(alloc, volume, numbers, marked)
}

/// The newest root that is durable in the files of a volume. `Damaged` is the first bad place of
/// files that are not those of a good store, or the place of a root whose trees are the tables of no
/// rows. Nothing is written.
pub fn find_newest<V: Volume>(alloc: Global, volume: &mut V) -> Result<Found, OpenError>
    ensures found { IsTrue (V.tells volume.old) → IfOk result (λ found.
        check (V.files volume.old) ≡ Ok (newest_of found)) }
    ensures kinds { IsTrue (V.tells volume.old) → IfOk result (λ found.
        kinds_of (trees_under (V.files volume.old) (newest_of found)) ≡ Some found.kinds) }
    ensures damaged { IsTrue (V.tells volume.old) → (place : Place)
        → result ≡ Err (OpenError.Damaged place)
        → check (V.files volume.old) ≡ Err place }
    ensures spelled { IsTrue (V.tells volume.old) → IfOk result (λ found. 0 < found.marks
        → numbers_at (bytes_of (V.files volume.old) (ends_of found.file)) (pred found.marks)
        ≡ numbers found.end found.back) }
    ensures device_only_after_a_fault { result ≡ Err OpenError.Device
        → Rose (V.faults volume.old) (V.faults volume.new) }
    ensures unfailed { OnOk result (V.faults volume.new ≡ V.faults volume.old) }
    ensures memory { result ≡ Err OpenError.Memory → V.faults volume.new ≡ V.faults volume.old }
    ensures room { IfOk result (λ found. 13 * (found.marks + 1) < 2 ^ 64) }
    ensures rooted { IfOk result IsRooted }
    ensures root { IsTrue (V.tells volume.old) → IfOk result (λ found. 0 < found.marks
        → HasRoot found (V.files volume.old)) }
    ensures reads { OnlyReads V.tells V.files V.moment V.may_leave V.leases V.refs V.faults
        volume.old volume.new }
{
    let numbers = volume.files()?;
    match find_used(alloc, volume, &numbers)? {
        None => Ok(nothing(alloc)),
        Some(used) => judge_body(alloc, volume, &numbers, last_mark(&used)),
    }
}
