//! A query in normal form, with its bytes.
ghost use Rattle.std.specs.Prelude.{◌≡◌, ◌↔◌, IfOk, IsTrue};
ghost use Rattle.xod_base.specs.Queries.{is_named};
ghost use Rattle.xod_base.specs.QueryTexts.{query_text};
ghost use Rattle.xod_handle.specs.Forms.{IsHandle, normal_of};

use crate::normal::normal_printed;
use crate::printed::Printed;
use std::alloc::Global;
use std::marker::Model;
use xod_base::{Memory, Query};

/// A query that can be written down and is its own normal form, seen as the query. Its bytes are its text.
#[derive(Debug, Drop)]
pub struct Handle {
    printed: Printed,
}

impl Model for Handle {
    ghost use Rattle.xod_base.specs.declared.query.Query.{Query};
    ghost use Rattle.xod_base.specs.contracts.query.Query as query_contracts;

    ghost Value = { Query };

    ghost coded = { (query_contracts.the_row).coded };

    ghost view = { λ handle. handle.printed };

    ghost use Rattle.xod_handle.specs.Forms.{IsHandle};

    ghost invariant = { λ handle. IsHandle handle.printed };
}

impl Handle {
    /// The normal form of a query, whose names are words.
    pub fn of(alloc: Global, query: &Query) -> Result<Handle, Memory>
        requires named { IsTrue (is_named query.now) }
        ensures { IfOk result (λ handle. handle ≡ normal_of query.now) }
    {
        let printed = normal_printed(alloc, query)?;
        Ok(Handle { printed })
    }

    /// The query.
    pub fn query(&self) -> &Query
        ensures exactly { result.now ≡ self.now }
        ensures handle { IsHandle self.now }
    {
        self.printed.query()
    }

    /// The text of the query.
    pub fn bytes(&self) -> &[u8]
        ensures text { result.now ≡ query_text self.now }
        ensures handle { IsHandle self.now }
    {
        self.printed.bytes()
    }

    fn has_bytes_of(&self, other: &Handle) -> bool
        ensures bytes { IsTrue result ↔ (query_text self.now ≡ query_text other.now) }
        ensures handles { IsHandle self.now × IsHandle other.now }
    {
        self.printed.bytes() == other.printed.bytes()
    }

    /// Whether both are the same query, which is whether they have the same bytes.
    pub fn same(&self, other: &Handle) -> bool
        ensures equal { IsTrue result ↔ (self.now ≡ other.now) }
        ensures bytes { IsTrue result ↔ (query_text self.now ≡ query_text other.now) }
    {
        self.has_bytes_of(other)
    }
}
