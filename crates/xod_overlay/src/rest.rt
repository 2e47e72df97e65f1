//! What is left of the touches of a tree on a walk by rising key.
ghost use Rattle.std.specs.Prelude.{◌≡◌, ◌++◌, ◌∷◌, [], MatchOption};
ghost use Rattle.xod_overlay.specs.Pieces.{joined, rest_of};

use crate::piece::{Piece, Touch};

/// Touches that are to come: what is left of one piece, and the pieces behind it.
#[derive(Clone, Copy, Debug)]
pub(crate) struct Rest<'a> {
    here: &'a [Touch],
    later: &'a [Piece],
}

impl<'a> Rest<'a> {
    /// No touches.
    pub(crate) fn none() -> Self
        ensures { rest_of result ≡ [] }
    {
        Rest {
            here: &[],
            later: &[],
        }
    }

    /// What is left of one piece, and then other pieces.
    pub(crate) fn new(here: &'a [Touch], later: &'a [Piece]) -> Self
        ensures { rest_of result ≡ here.now ++ joined later.now }
    {
        Rest { here, later }
    }

    /// The first touch, and the rest behind it.
    pub(crate) fn step(self) -> Option<(&'a Touch, Rest<'a>)>
        ensures { MatchOption result (rest_of self.entry ≡ [])
            (λ step. rest_of self.entry ≡ step.0.now ∷ rest_of step.1) }
    {
        if let Some((touch, here)) = self.here.split_first() {
            let later = self.later;
            return Some((touch, Rest { here, later }));
        }
        let (piece, later) = self.later.split_first()?;
        let here = piece.as_slice();
        Rest { here, later }.step()
    }
}
