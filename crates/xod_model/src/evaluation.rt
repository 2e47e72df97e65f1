//! What a query answers, by going through whole lists.
//!
//! The rule stands in `xod_base` in `specs/Evaluation.antt`. A form that has
//! parts is one function over their answers, most of them those of xod_forms.
ghost use Rattle.std.specs.Prelude.{◌≡◌, ◌==◌, IfOk};
ghost use Rattle.std.specs.List.{filter, flat_map};
ghost use Rattle.xod_base.specs.Evaluation.{answer_of, ids_of as all_ids_of, rising, targets_of as all_targets_of};
ghost use Rattle.xod_model.specs.Entries.{rows_of};
ghost use Rattle.xod_model.specs.Passing.{passes};

use crate::lists::Lists;
use crate::names::number_of;
use crate::passing::{Test, ValueTest, folded};
use crate::removal::targets_of;
use std::alloc::Global;
use xod_base::{EntityId, IdList, Memory, Query, Text};
use xod_forms::{in_both, in_either, in_first, skipped, taken};
use xod_sets::rising_of;

impl Lists {
    /// The ids of a type, rising.
    fn ids_of(&self, alloc: Global, kind: &Text) -> Result<IdList, Memory>
        ensures { IfOk result (λ ids. ids ≡ all_ids_of (rows_of self.now) kind.now) }
    {
        match number_of(&self.types, kind) {
            None => Ok(IdList::new(alloc)),
            Some(number) => {
                let mut ids = IdList::new(alloc);
                for id in self.entities() {
                    if id.kind as usize == number {
                        ids.push(*id)?;
                    }
                }
                Ok(ids)
            }
        }
    }

    /// The ids of a list that pass a test.
    fn passing(&self, alloc: Global, ids: &IdList, test: &Test<'_>) -> Result<IdList, Memory>
        ensures { IfOk result (λ found. found ≡ filter (passes (rows_of self.now) test.now) ids.now) }
    {
        let mut found = IdList::new(alloc);
        for number in ids.as_numbers() {
            let id = EntityId::of_number(*number);
            if self.passes(alloc, test, id)? {
                found.push(id)?;
            }
        }
        Ok(found)
    }

    /// The ids of a type that pass a test.
    fn ids_with(&self, alloc: Global, kind: &Text, test: Test<'_>) -> Result<IdList, Memory>
        ensures { IfOk result (λ found.
            found ≡ filter (passes (rows_of self.now) test.entry) (all_ids_of (rows_of self.now) kind.now)) }
    {
        let ids = self.ids_of(alloc, kind)?;
        let found = self.passing(alloc, &ids, &test)?;
        Ok(found)
    }

    /// The targets of links by a name of the ids of a list, rising.
    fn targets(&self, alloc: Global, link: &Text, ids: &IdList) -> Result<IdList, Memory>
        ensures { IfOk result (λ found.
            found ≡ rising (flat_map (all_targets_of (rows_of self.now) link.now) ids.now)) }
    {
        let mut found = IdList::new(alloc);
        for number in ids.as_numbers() {
            let targets = targets_of(alloc, self.joins(), link, EntityId::of_number(*number))?;
            found.append(&targets)?;
        }
        Ok(rising_of(found))
    }

    /// The ids that a query answers.
    pub fn answer(&self, alloc: Global, query: &Query) -> Result<IdList, Memory>
        ensures { IfOk result (λ ids. ids ≡ answer_of query.now (rows_of self.now)) }
    {
        match query {
            Query::All { kind } => self.ids_of(alloc, kind),
            Query::Find { kind, prop, value } => {
                let key = value.key_bytes(alloc)?;
                let test = ValueTest::Key { key };
                self.ids_with(alloc, kind, Test::Prop { prop, test })
            }
            Query::Range {
                kind,
                prop,
                low,
                high,
            } => {
                let low = low.key_bytes(alloc)?;
                let high = high.key_bytes(alloc)?;
                let test = ValueTest::Within { low, high };
                self.ids_with(alloc, kind, Test::Prop { prop, test })
            }
            Query::Prefix { kind, prop, text } => {
                let front = folded(alloc, text.as_bytes())?;
                let test = ValueTest::Front { front };
                self.ids_with(alloc, kind, Test::Prop { prop, test })
            }
            Query::With { kind, prop } => {
                let test = ValueTest::Any;
                self.ids_with(alloc, kind, Test::Prop { prop, test })
            }
            Query::WithLink { kind, link } => self.ids_with(alloc, kind, Test::Link { link }),
            Query::Linked { kind, link, target } => {
                let target = *target;
                self.ids_with(alloc, kind, Test::LinkTo { link, target })
            }
            Query::LinksOf { source, link } => targets_of(alloc, self.joins(), link, *source),
            Query::Union { left, right } => {
                let left = self.answer(alloc, left.get())?;
                let right = self.answer(alloc, right.get())?;
                in_either(alloc, left, right)
            }
            Query::Intersect { left, right } => {
                let left = self.answer(alloc, left.get())?;
                let right = self.answer(alloc, right.get())?;
                in_both(alloc, left, right)
            }
            Query::Minus { left, right } => {
                let left = self.answer(alloc, left.get())?;
                let right = self.answer(alloc, right.get())?;
                in_first(alloc, left, right)
            }
            Query::Targets { link, of } => {
                let ids = self.answer(alloc, of.get())?;
                self.targets(alloc, link, &ids)
            }
            Query::Sort {
                prop,
                direction,
                of,
            } => {
                let ids = self.answer(alloc, of.get())?;
                self.sorted(alloc, prop, *direction, &ids)
            }
            Query::Skip { count, of } => {
                let ids = self.answer(alloc, of.get())?;
                skipped(alloc, *count, &ids)
            }
            Query::Take { count, of } => {
                let ids = self.answer(alloc, of.get())?;
                Ok(taken(*count, ids))
            }
        }
    }
}
