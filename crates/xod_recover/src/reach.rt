//! Whether all that a root names is there, over the files of a volume, and whether its trees are
//! the tables of some rows.
ghost use Rattle.std.specs.Prelude.{◌≡◌, true, None, Some, Ok, Err, IfOk, OnOk, IsTrue};
ghost use Rattle.std.specs.List.{filter};
ghost use Rattle.std.specs.FinMap.{entries, keys};
ghost use Rattle.xod_base.specs.Causes.{Rose};
ghost use Rattle.xod_base.specs.declared.causes.Place.{Place};
ghost use Rattle.xod_base.specs.declared.causes.ReadError.TheVariants as read;
ghost use Rattle.xod_base.specs.Views.{CountsFaults};
ghost use Rattle.xod_recover.specs.declared.error.OpenError.{OpenError};
ghost use Rattle.xod_recover.specs.Cuts.{lent_upto};
ghost use Rattle.xod_recover.specs.Frames.{StandInBodies, lists_body};
ghost use Rattle.xod_recover.specs.Listings.{is_body};
ghost use Rattle.xod_recover.specs.Reads.{OnlyReads};
ghost use Rattle.xod_recover.specs.Steps.{kinds_audited, kinds_reached, kinds_upto};
ghost use Rattle.xod_recover.specs.Walks.{are_below, bad_trees};

use crate::error::OpenError;
use crate::owned::Owned;
use crate::sealed::Sealed;
use crate::walk::walk_trees;
use std::alloc::Global;
use std::marker::{Brand, PhantomData};
use xod_audit::audit;
use xod_base::{Memory, NameList, ReadError};
use xod_block::Address;
use xod_pages::Pages;
use xod_root::RootList;
use xod_snapshot::{Holding, Snapshot};
use xod_trie::place_of;
use xod_volume::{Lease, Volume};

/// The volume files that are bodies of log files.
fn bodies_among(alloc: Global, numbers: &[u64]) -> Result<Vec<u64>, Memory>
    ensures { IfOk result (λ bodies. bodies.items ≡ filter is_body numbers.now) }
{
    let mut bodies = Vec::new(alloc);
    for number in numbers {
        if number % 2 == 0 {
            bodies.push(*number)?;
        }
    }
    Ok(bodies)
}

/// Walks all that a root names in the files of a lease. In the root's own log file records count up
/// to the end.
fn walk_lease<L: Lease>(
    alloc: Global,
    lease: &mut L,
    numbers: &[u64],
    root: Address,
    end: u64,
    trees: &[(u8, Address)],
) -> Result<(), ReadError>
    ensures whole { IsTrue (L.tells lease.old)
        → StandInBodies (lent_upto (L.lent lease.old) root.file end) (lists_body numbers.now)
        → OnOk result (bad_trees (lent_upto (L.lent lease.old) root.file end) (lists_body numbers.now)
        root trees.now ≡ None) }
    ensures damaged { IsTrue (L.tells lease.old)
        → StandInBodies (lent_upto (L.lent lease.old) root.file end) (lists_body numbers.now)
        → (place : Place) → result ≡ Err (read.Damaged place)
        → bad_trees (lent_upto (L.lent lease.old) root.file end) (lists_body numbers.now)
        root trees.now ≡ Some place }
    ensures below { OnOk result (are_below root trees.now ≡ true) }
    ensures counts { CountsFaults (L.faults lease.old) (L.faults lease.new) result }
    ensures tells_same { L.tells lease.new ≡ L.tells lease.old }
    ensures refs_same { L.refs lease.new ≡ L.refs lease.old }
{
    let mut room = Vec::new(alloc);
    let mut sealed = Sealed {
        lease,
        room: &mut room,
        file: root.file,
        end,
    };
    walk_trees(alloc, &mut sealed, numbers, root, trees)
}

/// What is answered for an audit of the trees under a root.
fn kinds_audited(
    audited: Result<Option<NameList>, ReadError>,
    root: Address,
) -> Result<NameList, ReadError>
    ensures { result ≡ kinds_audited root audited }
{
    match audited {
        Ok(Some(kinds)) => Ok(kinds),
        Ok(None) | Err(ReadError::Damaged(_)) => Err(ReadError::Damaged(place_of(root))),
        Err(ReadError::Device) => Err(ReadError::Device),
        Err(ReadError::Memory) => Err(ReadError::Memory),
    }
}

/// Walks all that a root names in the files of a snapshot's lease, and then goes over its trees: the
/// names of the types of the rows that they are the tables of.
fn judge_owned<L: Lease, H: Holding>(
    alloc: Global,
    snapshot: &mut Snapshot<Owned<L, H>>,
    numbers: &[u64],
    root: Address,
    end: u64,
) -> Result<NameList, ReadError>
    ensures kinds { IsTrue (L.tells snapshot.old.lease.lease)
        → StandInBodies (lent_upto (L.lent snapshot.old.lease.lease) root.file end)
        (lists_body numbers.now)
        → IfOk result (λ kinds. kinds_reached
        (lent_upto (L.lent snapshot.old.lease.lease) root.file end)
        (lists_body numbers.now) root (entries snapshot.old.roots) ≡ Ok kinds) }
    ensures damaged { IsTrue (L.tells snapshot.old.lease.lease)
        → StandInBodies (lent_upto (L.lent snapshot.old.lease.lease) root.file end)
        (lists_body numbers.now)
        → (place : Place) → result ≡ Err (read.Damaged place)
        → kinds_reached (lent_upto (L.lent snapshot.old.lease.lease) root.file end)
        (lists_body numbers.now) root (entries snapshot.old.roots) ≡ Err place }
    ensures below { OnOk result (are_below root (entries snapshot.old.roots) ≡ true) }
    ensures counts { CountsFaults (L.faults snapshot.old.lease.lease)
        (L.faults snapshot.new.lease.lease) result }
{
    walk_lease(
        alloc,
        &mut snapshot.lease,
        numbers,
        root,
        end,
        snapshot.roots.as_slice(),
    )?;
    let audited = audit(snapshot, alloc);
    kinds_audited(audited, root)
}

/// `judge_owned` over a lease that has these files. It comes back, and has them afterwards too.
fn judge_lease<L: Lease, H: Holding>(
    alloc: Global,
    snapshot: Snapshot<L>,
    numbers: &[u64],
    root: Address,
    end: u64,
) -> (L, Result<NameList, ReadError>)
    requires list_is { L.list snapshot.lease ≡ H.list }
    requires lent_is { L.lent snapshot.lease ≡ H.lent }
    ensures kinds { IsTrue (L.tells snapshot.lease)
        → StandInBodies (lent_upto (L.lent snapshot.lease) root.file end) (lists_body numbers.now)
        → IfOk result.1 (λ kinds. kinds_reached (lent_upto (L.lent snapshot.lease) root.file end)
        (lists_body numbers.now) root (entries snapshot.roots) ≡ Ok kinds) }
    ensures damaged { IsTrue (L.tells snapshot.lease)
        → StandInBodies (lent_upto (L.lent snapshot.lease) root.file end) (lists_body numbers.now)
        → (place : Place) → result.1 ≡ Err (read.Damaged place)
        → kinds_reached (lent_upto (L.lent snapshot.lease) root.file end)
        (lists_body numbers.now) root (entries snapshot.roots) ≡ Err place }
    ensures below { OnOk result.1 (are_below root (entries snapshot.roots) ≡ true) }
    ensures counts { CountsFaults (L.faults snapshot.lease) (L.faults result.0) result.1 }
    ensures list_same { L.list result.0 ≡ L.list snapshot.lease }
{
    let Snapshot {
        lease,
        roots,
        version,
        pages,
    } = snapshot;
    let mut owned = Snapshot {
        lease: Owned::<L, H> {
            lease,
            files: PhantomData,
        },
        roots,
        version,
        pages,
    };
    let judged = judge_owned(alloc, &mut owned, numbers, root, end);
    let Snapshot {
        lease: Owned { lease, files: _ },
        roots: _,
        version: _,
        pages: _,
    } = owned;
    (lease, judged)
}

/// Walks all that a root names, and then goes over its trees: the names of the types of the rows
/// that they are the tables of. In its own log file records count up to the end. The volume files
/// are listed by number.
pub fn judge_reached<V: Volume>(
    alloc: Global,
    volume: &mut V,
    numbers: &[u64],
    root: Address,
    end: u64,
    roots: &RootList,
) -> Result<NameList, OpenError>
    requires listed { IsTrue (V.tells volume.old) → numbers.now ≡ keys (V.files volume.old) }
    ensures kinds { IsTrue (V.tells volume.old) → IfOk result (λ kinds.
        kinds_upto (V.files volume.old) root end (entries roots.now) ≡ Ok kinds) }
    ensures damaged { IsTrue (V.tells volume.old) → (place : Place)
        → result ≡ Err (OpenError.Damaged place)
        → kinds_upto (V.files volume.old) root end (entries roots.now) ≡ Err place }
    ensures below { OnOk result (are_below root (entries roots.now) ≡ true) }
    ensures device_only_after_a_fault { result ≡ Err OpenError.Device
        → Rose (V.faults volume.old) (V.faults volume.new) }
    ensures unfailed { OnOk result (V.faults volume.new ≡ V.faults volume.old) }
    ensures memory { result ≡ Err OpenError.Memory → V.faults volume.new ≡ V.faults volume.old }
    ensures reads { OnlyReads V.tells V.files V.moment V.may_leave V.leases V.refs V.faults
        volume.old volume.new }
{
    let bodies = bodies_among(alloc, numbers)?;
    let pages = Pages::new(alloc)?;
    let lease = volume.lend(&bodies)?;
    let snapshot = Snapshot {
        lease,
        roots: roots.copied(),
        version: 0,
        pages,
    };
    let (lease, judged) = judge_lease::<V::Held, Brand>(alloc, snapshot, numbers, root, end);
    volume.take_back(lease);
    Ok(judged?)
}
