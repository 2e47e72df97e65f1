//! What the types of texts and values say of changes. Nothing is done here, and nothing can fail.
ghost use Rattle.std.specs.Prelude.{IsTrue};
ghost use Rattle.std.specs.List.{list_all};
ghost use Rattle.xod_base.specs.Text.{is_text};
ghost use Rattle.xod_base.specs.Values.{is_value as value_test};
ghost use Rattle.xod_journal.specs.Changes.{is_change as change_test, is_option_value};

use xod_base::{Text, Value};
use xod_journal::RowChange;

/// A text is text.
fn know_text(text: &Text)
    ensures { IsTrue (is_text text.now) }
{
    let _bytes = text.as_bytes();
}

/// A value is one of the program's.
fn know_value(value: &Value)
    ensures { IsTrue (value_test value.now) }
{
    match value {
        Value::Flag(_) => (),
        Value::Int(number) => {
            let _number = *number;
        }
        Value::Text(text) => know_text(text),
    }
}

/// So is one that may be absent.
fn know_option(value: &Option<Value>)
    ensures { IsTrue (is_option_value value.now) }
{
    match value {
        None => (),
        Some(value) => know_value(value),
    }
}

/// A change has names that are texts, and a new value that is one.
fn know_change(change: &RowChange)
    ensures { IsTrue (change_test change.now) }
{
    match change {
        RowChange::AddEntity { id: _, kind } => know_text(kind),
        RowChange::RemoveEntity { id: _ } => (),
        RowChange::Prop {
            id: _,
            name,
            old: _,
            new,
        } => {
            know_text(name);
            know_option(new);
        }
        RowChange::LinkAdd {
            source: _,
            link,
            target: _,
        } => know_text(link),
        RowChange::LinkDel {
            source: _,
            link,
            target: _,
        } => know_text(link),
    }
}

/// Each change of a list is so.
pub(crate) fn know_changes(changes: &[RowChange])
    ensures { IsTrue (list_all change_test changes.now) }
{
    for change in changes {
        know_change(change);
    }
}
