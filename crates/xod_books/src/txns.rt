//! The open transactions of a store by their actors.
//!
//! A begin asks them who is in its way. The rule stands in `xod_journal`, in `specs/Books.antt`.
ghost use Rattle.std.specs.Prelude.{◌≡◌, is_ok, is_some, if◌then◌else◌, true, Some};
ghost use Rattle.std.specs.FinMap.{empty, entries, get, insert, remove};
ghost use Rattle.xod_journal.specs.declared.journal.Pinned.{Pinned};
ghost use Rattle.xod_journal.specs.Books.{holder_among, is_in_the_way};

use std::alloc::Global;
use std::collections::BTreeMap;
use std::marker::Model;
use xod_base::{Memory, Mode};
use xod_journal::Pinned;

/// Open transactions, at most one of each actor.
#[derive(Drop)]
pub struct TxnMap {
    items: BTreeMap<u32, Pinned>,
}

impl Model for TxnMap {
    ghost use Rattle.std.specs.Prelude.{IsTrue};
    ghost use Rattle.std.specs.Ordering.{nat_cmp};
    ghost use Rattle.std.specs.FinMap.{FinMap, from_sorted, is_sorted};
    ghost use Rattle.xod_journal.specs.declared.journal.Pinned.{Pinned as PinnedValue};
    ghost use Rattle.xod_books.specs.Txns.{txns_code};

    ghost Value = { FinMap nat_cmp PinnedValue };

    ghost coded = { txns_code };

    ghost view = { λ txns. from_sorted txns.items.entries };

    ghost invariant = { λ txns. IsTrue (is_sorted nat_cmp txns.items.entries) };
}

/// Whether a transaction of the second mode keeps one of the first from beginning.
fn is_in_the_way(mode: Mode, there: Mode) -> bool
    ensures { result ≡ is_in_the_way mode there }
{
    match (mode, there) {
        (Mode::ReadOnly, _) | (_, Mode::ReadOnly) => false,
        (Mode::Ordinary, _) => there == Mode::Exclusive,
        (Mode::Exclusive, _) => true,
    }
}

/// The least actor whose transaction is in the way.
fn holder(txns: &BTreeMap<u32, Pinned>, mode: Mode) -> Option<u32>
    ensures { result ≡ holder_among mode txns.now.entries }
{
    for (actor, txn) in txns.iter() {
        if is_in_the_way(mode, txn.mode) {
            return Some(*actor);
        }
    }
    None
}

impl TxnMap {
    /// No transactions.
    pub fn new(alloc: Global) -> Self
        ensures { result ≡ empty }
    {
        TxnMap {
            items: BTreeMap::new(alloc),
        }
    }

    /// The least actor whose transaction keeps one of a mode from beginning.
    pub fn holder(&self, mode: Mode) -> Option<u32>
        ensures { result ≡ holder_among mode (entries self.now) }
    {
        holder(&self.items, mode)
    }

    /// Sets an actor's transaction. A refusal leaves all as they were.
    pub fn set(&mut self, actor: u32, txn: Pinned) -> Result<(), Memory>
        ensures { self.new ≡ (if is_ok result then insert self.old actor txn else self.old) }
    {
        self.items.insert(actor, txn)?;
        Ok(())
    }

    /// Lets an actor's transaction, which is there, see another commit. It takes no memory.
    pub fn rebase(&mut self, actor: u32, base: u64)
        requires { is_some (get self.old actor) ≡ true }
        ensures { (txn : Pinned) → get self.old actor ≡ Some txn
            → self.new ≡ insert self.old actor (record txn { base = base }) }
    {
        match self.items.get_mut(&actor) {
            Some(txn) => txn.base = base,
            None => unreachable!(),
        }
    }

    /// Takes an actor's transaction out, where there is one.
    pub fn remove(&mut self, actor: u32)
        ensures { self.new ≡ remove self.old actor }
    {
        self.items.remove(&actor);
    }
}
