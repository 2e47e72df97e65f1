//! Lists of ids, each kept as one number.
//!
//! The number of an id is `kind * 2^32 + local`, so ids rise as their numbers do.
ghost use Rattle.std.specs.Prelude.{◌≡◌, ◌++◌, ◌∷◌, [], ◌↔◌, IsTrue, IfOk, length, map, is_ok, if◌then◌else◌};
ghost use Rattle.std.specs.List.{slice_get};
ghost use Rattle.xod_base.specs.Ids.{id_of_number as id_with, number_of_id};

use crate::Memory;
use crate::value::EntityId;
use std::alloc::Global;
use std::marker::Model;

/// How many local numbers there are for each number of a type.
const LOCALS: u64 = 4294967296;

impl EntityId {
    /// The one number that stands for the id in a list.
    pub fn number(self) -> u64
        ensures { result ≡ number_of_id self }
    {
        u64::from(self.kind) * LOCALS + u64::from(self.local)
    }

    /// The id that a number stands for.
    pub fn of_number(number: u64) -> EntityId
        ensures { result ≡ id_with number }
    {
        EntityId {
            kind: (number / LOCALS) as u32,
            local: (number % LOCALS) as u32,
        }
    }
}

/// Whether two lists have the same numbers in the same order.
fn same_numbers(numbers: &[u64], others: &[u64]) -> bool
    ensures { IsTrue result ↔ (numbers.now ≡ others.now) }
{
    numbers == others
}

/// A list of ids, seen as the list of them.
#[derive(Debug, Drop)]
pub struct IdList {
    numbers: Vec<u64>,
}

impl Model for IdList {
    ghost use Rattle.std.specs.Prelude.{List, map};
    ghost use Rattle.std.specs.Coded.{coded_list};
    ghost use Rattle.xod_base.specs.declared.value.EntityId.{EntityId};
    ghost use Rattle.xod_base.specs.contracts.value.EntityId as id_contracts;
    ghost use Rattle.xod_base.specs.Ids.{id_of_number};

    ghost Value = { List EntityId };

    ghost coded = { coded_list ((id_contracts.the_row).coded) };

    ghost view = { λ ids. map id_of_number ids.numbers.items };
}

impl IdList {
    /// The empty list, which takes no memory.
    pub fn new(alloc: Global) -> IdList
        ensures { result ≡ [] }
    {
        IdList {
            numbers: Vec::new(alloc),
        }
    }

    /// The list of ids whose numbers these are.
    pub fn from_numbers(numbers: Vec<u64>) -> IdList
        ensures { result ≡ map id_with numbers.items }
    {
        IdList { numbers }
    }

    /// The numbers of the ids.
    pub fn into_numbers(self) -> Vec<u64>
        ensures { result.items ≡ map number_of_id self }
    {
        let IdList { numbers } = self;
        numbers
    }

    /// The numbers of the ids.
    pub fn as_numbers(&self) -> &[u64]
        ensures numbers { result.now ≡ map number_of_id self.now }
        ensures ids { map id_with result.now ≡ self.now }
    {
        self.numbers.as_slice()
    }

    /// How many ids there are.
    pub fn len(&self) -> usize
        ensures { result ≡ length self.now }
    {
        self.numbers.len()
    }

    /// Whether there is no id.
    pub fn is_empty(&self) -> bool
        ensures { IsTrue result ↔ (self.now ≡ []) }
    {
        self.numbers.is_empty()
    }

    /// The id at a place, from 0.
    pub fn get(&self, at: usize) -> Option<EntityId>
        ensures { result ≡ slice_get self.now at }
    {
        match self.numbers.get(at) {
            Some(number) => Some(EntityId::of_number(*number)),
            None => None,
        }
    }

    /// Puts an id at the end. A refusal leaves the list as it was.
    pub fn push(&mut self, id: EntityId) -> Result<(), Memory>
        ensures { self.new ≡ (if is_ok result then self.old ++ id ∷ [] else self.old) }
    {
        self.numbers.push(id.number())?;
        Ok(())
    }

    /// Puts the ids of another list at the end. A refusal leaves the list as it was.
    pub fn append(&mut self, more: &IdList) -> Result<(), Memory>
        ensures { self.new ≡ (if is_ok result then self.old ++ more.now else self.old) }
    {
        self.numbers.extend_from_slice(&more.numbers)?;
        Ok(())
    }

    /// The same ids once more.
    pub fn try_clone(&self, alloc: Global) -> Result<IdList, Memory>
        ensures { IfOk result (λ ids. ids ≡ self.now) }
    {
        Ok(IdList {
            numbers: Vec::from_slice(alloc, &self.numbers)?,
        })
    }

    /// Whether both have the same ids in the same order.
    pub fn same(&self, other: &IdList) -> bool
        ensures { IsTrue result ↔ (self.now ≡ other.now) }
    {
        same_numbers(self.as_numbers(), other.as_numbers())
    }
}
