//! A body in memory that grows by saves, and a fetch over it whose calls can fail.
ghost use Rattle.std.specs.Prelude.{IsTrue};
ghost use Rattle.xod_trie_mut.specs.Changes.{FitChanges};
ghost use Rattle.xod_trie_mut.specs.Saves.{IsBelow};

use std::alloc::Global;
use std::test::Fail;
use xod_base::{Bytes, ReadError};
use xod_block::{Address, Body, BodyFetch, Fetch};
use xod_trie_mut::{Change, MutTrie};

/// The records of log file 0. It tells none of them. Its call with the number `fails` fails, counted from 1.
#[derive(Drop)]
pub(crate) struct Untold<'a> {
    pub bytes: &'a [u8],
    pub fails: u64,
    pub calls: u64,
    pub faults: u64,
}

impl<'a> Untold<'a> {
    pub(crate) fn over(bytes: &'a [u8], fails: u64) -> Self {
        Untold {
            bytes,
            fails,
            calls: 0,
            faults: 0,
        }
    }
}

impl Fetch for Untold<'_> {
    ghost use Rattle.std.specs.Prelude.{false, [], None};

    ghost tells = { λ _. false };

    ghost records = { λ _ _. None };

    ghost faults = { λ fetch. fetch.faults };

    ghost refs = { λ _. [] };

    ghost rises = { λ _ _. tt };

    ghost branches = { λ _ _. tt };

    fn fetch(&mut self, alloc: Global, at: Address, out: &mut Bytes) -> Result<usize, ReadError> {
        self.calls = self.calls.saturating_add(1);
        if self.calls == self.fails {
            self.faults = self.faults.saturating_add(1);
            return Err(ReadError::Device);
        }
        let bodies = [Body {
            file: 0,
            bytes: self.bytes,
        }];
        let mut fetch = BodyFetch { bodies: &bodies };
        fetch.fetch(alloc, at, out)
    }
}

/// A body and the root of the trie whose records end it.
#[derive(Drop)]
pub(crate) struct Saved {
    pub body: Bytes,
    pub root: Option<Address>,
}

/// The longest body that a test makes.
const LONGEST_BODY: usize = 1 << 30;

/// Whether the trie under a root can be saved behind a body.
fn is_saved_before(root: Option<Address>, at: Address) -> bool
    ensures { IsTrue result → IsBelow root at }
{
    match root {
        None => true,
        Some(root) => root.is_below(at),
    }
}

impl Saved {
    /// No record, and the empty trie.
    pub(crate) fn new(alloc: Global) -> Self {
        Saved {
            body: Bytes::new(alloc),
            root: None,
        }
    }

    /// Makes changes, one after another, and saves the trie behind the body.
    pub(crate) fn change(&mut self, alloc: Global, changes: &[Change<'_>]) -> Result<(), Fail>
        requires { FitChanges changes.now }
    {
        if self.body.len() > LONGEST_BODY {
            return Err(Fail::from("a long body"));
        }
        let at = Address {
            file: 0,
            at: self.body.len() as u64,
        };
        if !is_saved_before(self.root, at) {
            return Err(Fail::from("a root behind its body"));
        }
        let mut trie = MutTrie::over(alloc, self.root);
        trie.change(&mut Untold::over(self.body.as_slice(), 0), alloc, changes)?;
        let mut block = Bytes::new(alloc);
        self.root = trie.save(alloc, at, &mut block)?;
        self.body.append(block)?;
        Ok(())
    }

    /// Sets the value of a key, or takes the key away.
    pub(crate) fn set(
        &mut self,
        alloc: Global,
        key: &[u8],
        value: Option<&[u8]>,
    ) -> Result<(), Fail> {
        if key.len() > 65535 || value.is_some_and(|value| value.len() > 65535) {
            return Err(Fail::from("a long key or value"));
        }
        self.change(alloc, &[Change { key, value }])
    }
}
