//! A list whose items rise by their keys, each key once.
//!
//! A place is found by halving. What the calls leave stands in `specs/Rising.antt`.
ghost use Rattle.std.specs.Prelude.{◌≡◌, IfOk, IfErr, OnOk, OnErr, IsTrue, [], is_ok, if◌then◌else◌};
ghost use Rattle.std.specs.List.{find as first_that};
ghost use Rattle.std.specs.Option.{option_copied};
ghost use Rattle.xod_model.specs.Keys.{link_of};
ghost use Rattle.xod_model.specs.Rising.{IsGap, IsPlace, is_at, put_item, rises as rises_test, without};

use crate::keyed::{Key, Keyed, copies, order};
use std::alloc::Global;
use std::marker::Model;
use xod_base::Memory;

/// Items by rising key.
#[derive(Debug, Drop)]
pub struct Rising<T: Keyed> {
    items: Vec<T>,
}

impl<T: Keyed> Model for Rising<T> {
    ghost use Rattle.std.specs.Prelude.{IsTrue, List};
    ghost use Rattle.std.specs.Coded.{coded_list};
    ghost use Rattle.xod_model.specs.Rising.{rises};

    ghost Value = { List T };

    ghost coded = { coded_list T.code };

    ghost view = { λ list. list.items.items };

    ghost invariant = { λ list. IsTrue (rises T.key list.items.items) };
}

/// Where the item is that has a key, or where one goes.
fn place<T: Keyed>(items: &[T], key: Key<'_>) -> Result<usize, usize>
    requires { IsTrue (rises_test T.key items.now) }
    ensures found { IfOk result (IsPlace T.key items.now (link_of key.entry)) }
    ensures absent { IfErr result (IsGap T.key items.now (link_of key.entry)) }
{
    items.binary_search_by(|item| order(item.key(), key))
}

/// Puts an item in its place in a list that rises.
fn put_in<T: Keyed>(items: &mut Vec<T>, item: T) -> Result<(), Memory>
    requires { IsTrue (rises_test T.key items.old.items) }
    ensures ok { OnOk result (items.new.items ≡ put_item T.key item items.old.items) }
    ensures err { OnErr result (items.new.items ≡ items.old.items) }
{
    match place(items, item.key()) {
        Ok(i) => items[i] = item,
        Err(i) => items.insert(i, item)?,
    }
    Ok(())
}

impl<T: Keyed> Rising<T> {
    /// The empty list, which takes no memory.
    pub fn new(alloc: Global) -> Self
        ensures { result ≡ [] }
    {
        Rising {
            items: Vec::new(alloc),
        }
    }

    /// The items.
    pub fn as_slice(&self) -> &[T]
        ensures items { result.now ≡ self.now }
        ensures rises { IsTrue (rises_test T.key self.now) }
    {
        self.items.as_slice()
    }

    /// The item that has a key.
    pub fn find(&self, key: Key<'_>) -> Option<&T>
        ensures { option_copied result ≡ first_that (is_at T.key (link_of key.entry)) self.now }
    {
        match place(&self.items, key) {
            Ok(i) => Some(&self.items[i]),
            Err(_) => None,
        }
    }

    /// Puts an item in its place, where it replaces the one that has its key. A refusal leaves the list as it was.
    pub fn put(&mut self, item: T) -> Result<(), Memory>
        ensures { self.new ≡ (if is_ok result then put_item T.key item self.old else self.old) }
    {
        put_in(&mut self.items, item)?;
        Ok(())
    }

    /// Takes out the item that has a key, where there is one.
    pub fn remove(&mut self, key: Key<'_>)
        ensures { self.new ≡ without T.key (link_of key.entry) self.old }
    {
        self.items.retain(|item| !order(key, item.key()).is_eq());
    }

    /// The same items once more.
    pub fn try_clone(&self, alloc: Global) -> Result<Self, Memory>
        ensures { IfOk result (λ list. list ≡ self.now) }
    {
        Ok(Rising {
            items: copies(alloc, &self.items)?,
        })
    }
}
