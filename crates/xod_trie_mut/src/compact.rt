//! Branches in memory that the root does not reach, let go.
ghost use Rattle.std.specs.Prelude.{IfOk};
ghost use Rattle.xod_trie_mut.specs.Compacts.{IsCompacted};
ghost use Rattle.xod_trie_mut.specs.Saves.{IsSoundOver};

use crate::own_branch::OwnBranch;
use crate::save::put_under;
use crate::seat::{Seat, Stand};
use std::alloc::Global;
use xod_base::{Listed, Memory};

/// Branches in memory, and a root.
#[derive(Debug, Drop)]
pub struct Kept {
    pub own: Listed<OwnBranch>,
    pub root: Option<Seat>,
}

/// The same trie of those branches alone that the root reaches, children before their parents.
pub fn reached(alloc: Global, own: &[OwnBranch], root: Option<Seat>) -> Result<Kept, Memory>
    requires { IsSoundOver own.now root }
    ensures { IfOk result (IsCompacted own.now root) }
{
    let mut list = Listed::new(alloc);
    let Some(seat) = root else {
        return Ok(Kept {
            own: list,
            root: None,
        });
    };
    match seat.stand() {
        Stand::Saved(_) => Ok(Kept { own: list, root }),
        Stand::Own(index) => {
            let at = put_under(alloc, own, index as usize, &mut list)?;
            Ok(Kept {
                own: list,
                root: Some(at),
            })
        }
    }
}
