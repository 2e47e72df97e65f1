//! The block of a commit, byte for byte.
ghost use Rattle.std.specs.Prelude.{IfOk};
ghost use Rattle.xod_overlay.specs.Marks.{touched};
ghost use Rattle.xod_commit.specs.Blocks.{Fit};

use super::store::Untold;
use std::alloc::Global;
use std::test::Fail;
use xod_block::Address;
use xod_commit::{Built, build_block, touches_stay_fit};
use xod_overlay::Overlay;
use xod_root::RootList;

/// The trie of `a` and `ab` as in `worked`, the leaf of `c`, and the record of the two roots at commit 5.
const BLOCK: [u8; 73] = [
    1, 0, 0, 0, 1, 0x32, //
    2, 0, 1, 0x61, 1, 0, 1, 0x31, 0, 1, 0x62, 0, 0, 0, 0, 0, 0, 0, 0, 0, 0, 0, 0, //
    1, 0, 1, 0x63, 0, 1, 0x33, //
    3, 1, 0, 0, 0, 0, 0, 0, 0, 5, 2, //
    1, 0, 0, 0, 0, 0, 0, 0, 0, 0, 0, 0, 6, //
    3, 0, 0, 0, 0, 0, 0, 0, 0, 0, 0, 0, 29,
];

/// Touched keys of the trees 1 and 3.
fn touched(alloc: Global) -> Result<Overlay, Fail>
    ensures { IfOk result (λ changes. Fit (touched changes)) }
{
    touches_stay_fit();
    let mut changes = Overlay::new(alloc);
    changes.put(alloc, 3, b"c", b"3")?;
    changes.put(alloc, 1, b"ab", b"2")?;
    changes.put(alloc, 1, b"a", b"1")?;
    Ok(changes)
}

/// The block of a commit with these touched keys, over no tree.
fn block_of(alloc: Global, changes: &Overlay) -> Result<Built, Fail>
    requires { Fit (touched changes.now) }
{
    let at = Address { file: 0, at: 0 };
    let mut fetch = Untold::over(&[], 0);
    let built = build_block(alloc, &mut fetch, &RootList::new(), 5, at, changes)?;
    Ok(built)
}

#[test]
fn a_block_has_its_trees_in_order_and_their_root_record(rt: HostRuntime) -> Result<(), Fail> {
    let alloc = rt.alloc();
    let changes = touched(alloc)?;
    let built = block_of(alloc, &changes)?;
    assert!(rt; built.block.as_slice() == BLOCK.as_slice());
    assert_eq!(rt; built.back, 37);
    assert_eq!(rt; built.roots.get(1), Some(Address { file: 0, at: 6 }));
    assert_eq!(rt; built.roots.get(2), None);
    assert_eq!(rt; built.roots.get(3), Some(Address { file: 0, at: 29 }));
    Ok(())
}
