//! An entity that goes, with all that belongs to it.
ghost use Rattle.std.specs.Prelude.{◌≡◌, OnOk};
ghost use Rattle.xod_base.specs.declared.query.Act.TheVariants as act;
ghost use Rattle.xod_journal.specs.Changes.{expansion_of};
ghost use Rattle.xod_acts.specs.Acts.{delete_plan, without_links_in, without_links_out, without_values};
ghost use Rattle.xod_acts.specs.Telling.{Expands, Gives};

use crate::found::{Belongings, belongings_of};
use crate::making::told;
use crate::plan::Plan;
use std::alloc::Global;
use xod_base::{EntityId, Memory, StmtError, TreeView};
use xod_journal::RowChange;
use xod_reader::{NamedLink, NamedValue};

impl Plan {
    /// The properties of an entity go.
    fn push_values_gone(
        &mut self,
        alloc: Global,
        id: EntityId,
        values: &[NamedValue],
    ) -> Result<(), Memory>
        ensures { OnOk result (self.new ≡ without_values id values.now self.old) }
    {
        for part in values {
            let change = RowChange::Prop {
                id,
                name: part.name.try_clone(alloc)?,
                old: Some(part.value.try_clone(alloc)?),
                new: None,
            };
            self.push(alloc, part.number, change)?;
        }
        Ok(())
    }

    /// The links out of an entity go.
    fn push_links_out_gone(
        &mut self,
        alloc: Global,
        id: EntityId,
        links: &[NamedLink],
    ) -> Result<(), Memory>
        ensures { OnOk result (self.new ≡ without_links_out id links.now self.old) }
    {
        for part in links {
            let change = RowChange::LinkDel {
                source: id,
                link: part.name.try_clone(alloc)?,
                target: part.end,
            };
            self.push(alloc, part.number, change)?;
        }
        Ok(())
    }

    /// The links into an entity from others go.
    fn push_links_in_gone(
        &mut self,
        alloc: Global,
        id: EntityId,
        links: &[NamedLink],
    ) -> Result<(), Memory>
        ensures { OnOk result (self.new ≡ without_links_in id links.now self.old) }
    {
        for part in links {
            let change = RowChange::LinkDel {
                source: part.end,
                link: part.name.try_clone(alloc)?,
                target: id,
            };
            self.push(alloc, part.number, change)?;
        }
        Ok(())
    }
}

/// The plan of an entity that goes, by all that belongs to it.
fn plan_delete(alloc: Global, id: EntityId, found: Option<Belongings>) -> Result<Plan, StmtError>
    ensures { Gives (delete_plan id found) result }
{
    let Some(parts) = found else {
        return Err(StmtError::NoEntity { id });
    };
    let mut plan = Plan::empty(alloc);
    plan.push_values_gone(alloc, id, parts.values.as_slice())?;
    plan.push_links_out_gone(alloc, id, parts.links_out.as_slice())?;
    plan.push_links_in_gone(alloc, id, parts.links_in.as_slice())?;
    plan.push(alloc, id.kind, RowChange::RemoveEntity { id })?;
    Ok(plan)
}

/// Plans that an entity goes, and all that belongs to it before.
pub fn expand_delete<T: TreeView>(
    view: &mut T,
    alloc: Global,
    id: EntityId,
) -> Result<Plan, StmtError>
    ensures { Expands T.tells T.trees T.commit T.refs T.faults
        (λ rows. expansion_of rows (act.Delete id)) view.old view.new result }
{
    match belongings_of(view, alloc, id) {
        Ok(found) => plan_delete(alloc, id, found),
        Err(error) => Err(told(error)),
    }
}
