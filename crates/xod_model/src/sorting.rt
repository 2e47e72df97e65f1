//! Ids in the order of a property.
//!
//! The key of each id is looked up once; then xod_forms sorts the ids with their keys. The order stands in `xod_base`, in
//! `specs/Evaluation.antt`.
ghost use Rattle.std.specs.Prelude.{◌≡◌, IfOk, map};
ghost use Rattle.std.specs.Option.{option_copied};
ghost use Rattle.xod_base.specs.Evaluation.{key_at, sort_cmp, sorted_by};
ghost use Rattle.xod_forms.specs.Ranks.{rank_of};
ghost use Rattle.xod_model.specs.Entries.{rows_of};

use crate::lists::Lists;
use std::alloc::Global;
use xod_base::{Bytes, Direction, EntityId, IdList, Memory, Text, Value};
use xod_forms::{Ranked, sorted};

/// The key of a value that may be absent.
fn key_of(alloc: Global, value: Option<&Value>) -> Result<Option<Bytes>, Memory>
    ensures { IfOk result (λ key. key ≡ key_at (option_copied value.entry)) }
{
    match value {
        None => Ok(None),
        Some(value) => Ok(Some(value.key_bytes(alloc)?)),
    }
}

impl Lists {
    /// The ids of a list with their keys.
    fn ranked(&self, alloc: Global, prop: &Text, ids: &IdList) -> Result<Vec<Ranked>, Memory>
        ensures { IfOk result (λ ranked. ranked.items ≡ map (rank_of (rows_of self.now) prop.now) ids.now) }
    {
        let mut ranked = Vec::new(alloc);
        for number in ids.as_numbers() {
            let id = EntityId::of_number(*number);
            ranked.push(Ranked {
                key: key_of(alloc, self.value(id, prop))?,
                id,
            })?;
        }
        Ok(ranked)
    }

    /// The ids of a list by a property; equal keys by rising id, ids without it last.
    pub fn sorted(
        &self,
        alloc: Global,
        prop: &Text,
        direction: Direction,
        ids: &IdList,
    ) -> Result<IdList, Memory>
        ensures { IfOk result (λ sorted.
            sorted ≡ sorted_by (sort_cmp (rows_of self.now) prop.now direction) ids.now) }
    {
        let ranked = self.ranked(alloc, prop, ids)?;
        let sorted = sorted(alloc, direction, ranked)?;
        Ok(sorted)
    }
}
