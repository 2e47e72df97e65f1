//! The view of an overlay over another view.
ghost use Rattle.std.specs.Prelude.{◌≡◌, ◌∷◌};
ghost use Rattle.xod_overlay.specs.Marks.{overlaid_trees, touched};

use crate::merging::{copied, least_of_both};
use crate::overlay::Overlay;
use std::alloc::Global;
use xod_base::{Bytes, Pair, ReadError, TreeView};

/// An overlay over a view: what stands below, with the touched keys replaced or removed.
#[derive(Drop)]
pub struct Overlaid<'a, T: TreeView> {
    pub overlay: &'a Overlay,
    pub below: &'a mut T,
}

impl<'a, T: TreeView> TreeView for Overlaid<'a, T> {
    ghost tells = { λ view. T.tells view.below.now };

    ghost trees = { λ view. overlaid_trees (touched view.overlay.now) (T.trees view.below.now) };

    ghost commit = { λ view. T.commit view.below.now };

    ghost faults = { λ view. T.faults view.below.now };

    ghost refs = { λ view. view.below.ghost_name ∷ T.refs view.below.now };

    fn get(&mut self, alloc: Global, tree: u8, key: &[u8]) -> Result<Option<Bytes>, ReadError> {
        match self.overlay.get(tree, key) {
            None => self.below.get(alloc, tree, key),
            Some(None) => Ok(None),
            Some(Some(value)) => {
                let value = copied(alloc, value)?;
                Ok(Some(value))
            }
        }
    }

    fn seek(&mut self, alloc: Global, tree: u8, key: &[u8]) -> Result<Option<Pair>, ReadError> {
        let found = self.below.seek(alloc, tree, key)?;
        let touches = self.overlay.touches_from(tree, key, false);
        least_of_both(self.below, alloc, tree, touches, found)
    }

    fn next(&mut self, alloc: Global, tree: u8, key: &[u8]) -> Result<Option<Pair>, ReadError> {
        let found = self.below.next(alloc, tree, key)?;
        let touches = self.overlay.touches_from(tree, key, true);
        least_of_both(self.below, alloc, tree, touches, found)
    }
}
