//! Plans of acts.
ghost use Rattle.std.specs.Prelude.{IsTrue};
ghost use Rattle.xod_base.specs.Views.{KeepsView};
ghost use Rattle.xod_journal.specs.Changes.{expansion_of, has_names};
ghost use Rattle.xod_journal.specs.Locals.{CountsFaults};
ghost use Rattle.xod_acts.specs.Plans.{Plans};

use crate::delete::expand_delete;
use crate::links::{expand_link, expand_set_link, expand_unlink, expand_unlink_all};
use crate::new::expand_new;
use crate::set::{expand_set, expand_unset};
use std::alloc::Global;
use xod_base::{Act, StmtError, TreeView};
use xod_journal::ChangeList;
use xod_overlay::WriteList;

/// The changes of an act, in their order, and what they write.
#[derive(Debug, Drop)]
pub struct Plan {
    pub changes: ChangeList,
    pub writes: WriteList,
}

/// What an act changes and writes, or the first reason to refuse it.
///
/// Over trees of no store a value that was read may have a key that is too long for a tree: the bytes are damaged then.
pub fn expand<T: TreeView>(view: &mut T, alloc: Global, act: &Act) -> Result<Plan, StmtError>
    requires { IsTrue (has_names act.now) }
    ensures plans { Plans (T.tells view.old) (T.trees view.old) (λ rows. expansion_of rows act.now) result }
    ensures counts { CountsFaults (T.faults view.old) (T.faults view.new) result }
    ensures keeps { KeepsView T.tells T.trees T.commit T.refs T.faults view.old view.new }
{
    match act {
        Act::New { kind } => expand_new(view, alloc, kind),
        Act::Set { id, prop, value } => expand_set(view, alloc, *id, prop, value),
        Act::Unset { id, prop } => expand_unset(view, alloc, *id, prop),
        Act::Delete { id } => expand_delete(view, alloc, *id),
        Act::Link {
            source,
            link,
            target,
        } => expand_link(view, alloc, *source, link, *target),
        Act::SetLink {
            source,
            link,
            target,
        } => expand_set_link(view, alloc, *source, link, *target),
        Act::Unlink {
            source,
            link,
            target,
        } => expand_unlink(view, alloc, *source, link, *target),
        Act::UnlinkAll { source, link } => expand_unlink_all(view, alloc, *source, link),
    }
}
