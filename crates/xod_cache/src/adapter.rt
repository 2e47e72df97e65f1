//! The adapter of a snapshot.
ghost use Rattle.std.specs.Prelude.{◌≡◌, IfOk, OnOk, if◌then◌else◌, is_ok};
ghost use Rattle.xod_cache.specs.Kinds.{kind_after, kinds_after};

use std::alloc::Global;
use xod_base::{Memory, NameList, Text};
use xod_journal::RowChange;

/// The names of a snapshot's types, by their numbers. It has no answers of queries yet.
#[derive(Debug, Drop)]
pub struct Adapter {
    names: NameList,
}

/// The same names once more. A copy of a name shares its bytes.
pub fn copy_names(alloc: Global, names: &[Text]) -> Result<NameList, Memory>
    ensures { IfOk result (λ copied. copied ≡ names.now) }
{
    let mut copied = NameList::new(alloc);
    for name in names {
        copied.push(name.try_clone(alloc)?)?;
    }
    Ok(copied)
}

/// Puts the name of a type that a change makes at the end. A refusal leaves the names as they were.
fn follow_one(alloc: Global, names: &mut NameList, change: &RowChange) -> Result<(), Memory>
    ensures { names.new ≡ (if is_ok result then kind_after names.old change.now else names.old) }
{
    match change {
        RowChange::AddEntity { id, kind } if id.kind as usize == names.len() => {
            names.push(kind.try_clone(alloc)?)?;
            Ok(())
        }
        RowChange::AddEntity { .. }
        | RowChange::RemoveEntity { .. }
        | RowChange::Prop { .. }
        | RowChange::LinkAdd { .. }
        | RowChange::LinkDel { .. } => Ok(()),
    }
}

impl Adapter {
    /// The adapter of a snapshot with these type names, without answers.
    pub fn over(kinds: NameList) -> Adapter
        ensures { result.names ≡ kinds }
    {
        Adapter { names: kinds }
    }

    /// The names of the types.
    pub fn kinds(&self) -> &NameList
        ensures { result.now ≡ self.now.names }
    {
        &self.names
    }

    /// The same adapter once more.
    pub fn copy(&self, alloc: Global) -> Result<Adapter, Memory>
        ensures { IfOk result (λ adapter. adapter.names ≡ self.now.names) }
    {
        let names = copy_names(alloc, self.names.as_slice())?;
        Ok(Adapter { names })
    }

    /// Follows changes that were made: the name of each type that is new comes to the others. A refusal leaves some of
    /// them there.
    pub fn follow(&mut self, alloc: Global, changes: &[RowChange]) -> Result<(), Memory>
        ensures { OnOk result (self.new.names ≡ kinds_after self.old.names changes.now) }
    {
        for change in changes {
            follow_one(alloc, &mut self.names, change)?;
        }
        Ok(())
    }
}
