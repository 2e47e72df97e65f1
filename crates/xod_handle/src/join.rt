//! The two forms whose parts the normal form arranges.
ghost use Rattle.std.specs.Prelude.{◌≡◌, IfOk};
ghost use Rattle.xod_handle.specs.Forms.{join_word, joined};

use sqlite_items::Boxed;
use std::alloc::Global;
use xod_base::{Memory, Query};

/// A union or an intersection.
#[derive(Clone, Copy, Debug)]
pub enum Join {
    Either,
    Both,
}

impl Join {
    /// The word before its parts, and a space.
    pub fn word(self) -> &'static [u8]
        ensures { result.now ≡ join_word self }
    {
        match self {
            Join::Either => b"union ",
            Join::Both => b"intersect ",
        }
    }

    /// The query of two parts.
    pub fn of(
        self,
        alloc: Global,
        left: Boxed<Query>,
        right: Boxed<Query>,
    ) -> Result<Boxed<Query>, Memory>
        ensures { IfOk result (λ query. query ≡ joined self left right) }
    {
        let query = match self {
            Join::Either => Query::Union { left, right },
            Join::Both => Query::Intersect { left, right },
        };
        Ok(Boxed::new(alloc, query)?)
    }
}
