//! What a transaction answers, as it is printed.
ghost use Rattle.std.specs.Prelude.{IsTrue};
ghost use Rattle.xod_journal.specs.Changes.{has_names};

use std::alloc::Global;
use xod_base::{Act, ActAnswer, Memory, Query, Reply, Shown, StmtError, TreeView};
use xod_estxn::EntityTxn;
use xod_print::answer_line;
use xod_trial::{Datum, Given, Id, act_of, id_of, name_of, value_of};

/// All entities of a type.
pub(crate) fn all_of(alloc: Global, word: &str) -> Result<Query, Memory> {
    let kind = name_of(alloc, word.as_bytes())?;
    Ok(Query::All { kind })
}

/// Those of a type whose property has a value.
pub(crate) fn find_of(alloc: Global, find: (&str, &str, Datum)) -> Result<Query, Memory> {
    let (kind, prop, datum) = find;
    let kind = name_of(alloc, kind.as_bytes())?;
    let prop = name_of(alloc, prop.as_bytes())?;
    let value = value_of(alloc, datum)?;
    Ok(Query::Find { kind, prop, value })
}

/// The answer to an act.
pub(crate) fn acted(answer: Result<ActAnswer, StmtError>) -> Reply {
    match answer {
        Ok(answer) => Reply::Acted(answer),
        Err(error) => Reply::Refused(error),
    }
}

/// The answer to a show.
pub(crate) fn shown(answer: Result<Shown, StmtError>) -> Reply {
    match answer {
        Ok(shown) => Reply::Shown(shown),
        Err(error) => Reply::Refused(error),
    }
}

/// Whether an answer is printed so, as that of line 1.
fn says(alloc: Global, reply: &Reply, wanted: &str) -> Result<bool, Memory> {
    let line = answer_line(alloc, 1, reply)?;
    Ok(line.as_slice() == wanted.as_bytes())
}

/// Whether an act is answered so.
pub(crate) fn act_says<T: TreeView>(
    alloc: Global,
    txn: &mut EntityTxn<T>,
    act: &Act,
    wanted: &str,
) -> Result<bool, Memory>
    requires { IsTrue (has_names act.now) }
{
    let reply = acted(txn.act(alloc, act));
    says(alloc, &reply, wanted)
}

/// Whether an act that is given is answered so.
pub(crate) fn given_says<T: TreeView>(
    alloc: Global,
    txn: &mut EntityTxn<T>,
    given: Given,
    wanted: &str,
) -> Result<bool, Memory> {
    let act = act_of(alloc, given)?;
    act_says(alloc, txn, &act, wanted)
}

/// Whether an entity is shown so.
pub(crate) fn show_says<T: TreeView>(
    alloc: Global,
    txn: &mut EntityTxn<T>,
    id: Id,
    wanted: &str,
) -> Result<bool, Memory> {
    let reply = shown(txn.show(alloc, id_of(id)));
    says(alloc, &reply, wanted)
}

/// Whether the query of all entities of a type is answered so.
pub(crate) fn all_says<T: TreeView>(
    alloc: Global,
    txn: &mut EntityTxn<T>,
    word: &str,
    wanted: &str,
) -> Result<bool, Memory> {
    let query = all_of(alloc, word)?;
    let reply = match txn.query(alloc, &query) {
        Ok(answer) => Reply::Ids(answer.ids),
        Err(error) => Reply::Refused(error),
    };
    says(alloc, &reply, wanted)
}
