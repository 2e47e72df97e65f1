//! A view that is lent with touched keys over it, of which it is known afterwards that its trees are the same.
//!
//! A `TreeView` over another one says which trees it shows, and not which stand below. So of a view that was lent with an
//! overlay only what both show is known again. Here it is lent as a `Kept`, whose type says which trees it has.
ghost use Rattle.std.specs.Prelude.{◌≡◌, ◌∷◌, None};
ghost use Rattle.std.proofs.Props.{props};
ghost use Rattle.xod_base.specs.Views.{Trees};
ghost use Rattle.xod_estxn.specs.Facts.{same_tree};

use std::alloc::Global;
use std::marker::{Brand, PhantomData};
use xod_base::{Bytes, Pair, ReadError, TreeView};

/// Which trees a view has. Each call picks those of its own view.
pub(crate) trait Holding {
    /// The trees by number.
    ghost trees: { Trees };
}

impl Holding for Brand {
    ghost trees = { λ _. None };
}

/// A view that has these trees, whatever was done with it.
#[derive(Drop)]
pub(crate) struct Kept<'a, T: TreeView, H: Holding> {
    pub(crate) view: &'a mut T,
    pub(crate) trees: PhantomData<H>,
    ghost trees_are: { T.trees view.now ≡ H.trees } by { Prim.hlevel (props, same_tree) },
}

impl<'a, T: TreeView, H: Holding> TreeView for Kept<'a, T, H> {
    ghost tells = { λ kept. T.tells kept.view.now };

    ghost trees = { λ kept. T.trees kept.view.now };

    ghost commit = { λ kept. T.commit kept.view.now };

    ghost faults = { λ kept. T.faults kept.view.now };

    ghost refs = { λ kept. kept.view.ghost_name ∷ T.refs kept.view.now };

    fn get(&mut self, alloc: Global, tree: u8, key: &[u8]) -> Result<Option<Bytes>, ReadError> {
        self.view.get(alloc, tree, key)
    }

    fn seek(&mut self, alloc: Global, tree: u8, key: &[u8]) -> Result<Option<Pair>, ReadError> {
        self.view.seek(alloc, tree, key)
    }

    fn next(&mut self, alloc: Global, tree: u8, key: &[u8]) -> Result<Option<Pair>, ReadError> {
        self.view.next(alloc, tree, key)
    }
}
