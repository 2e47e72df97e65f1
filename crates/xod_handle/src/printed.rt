//! A query with its text, so that each is printed once and compared as bytes.
ghost use Rattle.std.specs.Prelude.{◌≡◌};
ghost use Rattle.xod_base.specs.QueryTexts.{query_text};
ghost use Rattle.xod_base.specs.Values.{bytes_cmp};

use sqlite_items::Boxed;
use std::cmp::Ordering;
use std::marker::Model;
use xod_base::{Bytes, Query};

/// A query and its text, seen as the query.
#[derive(Debug, Drop)]
pub struct Printed {
    query: Boxed<Query>,
    text: Bytes,
}

impl Model for Printed {
    ghost use Rattle.std.specs.Prelude.{◌≡◌};
    ghost use Rattle.xod_base.specs.declared.query.Query.{Query};
    ghost use Rattle.xod_base.specs.contracts.query.Query as query_contracts;
    ghost use Rattle.xod_base.specs.QueryTexts.{query_text};

    ghost Value = { Query };

    ghost coded = { (query_contracts.the_row).coded };

    ghost view = { λ printed. printed.query };

    ghost invariant = { λ printed. printed.text ≡ query_text printed.query };
}

impl Printed {
    /// A query with the text that it has.
    pub fn new(query: Boxed<Query>, text: Bytes) -> Printed
        requires printed { text ≡ query_text query }
        ensures { result ≡ query }
    {
        Printed { query, text }
    }

    /// The text.
    pub fn bytes(&self) -> &[u8]
        ensures { result.now ≡ query_text self.now }
    {
        self.text.as_slice()
    }

    /// The query.
    pub fn query(&self) -> &Query
        ensures { result.now ≡ self.now }
    {
        self.query.get()
    }

    /// The query, with the text let go.
    pub fn into_query(self) -> Boxed<Query>
        ensures { result ≡ self }
    {
        let Printed { query, text: _text } = self;
        query
    }

    /// The order of the texts.
    pub fn cmp_text(&self, other: &Printed) -> Ordering
        ensures { result ≡ bytes_cmp (query_text self.now) (query_text other.now) }
    {
        self.bytes().cmp(other.bytes())
    }
}
