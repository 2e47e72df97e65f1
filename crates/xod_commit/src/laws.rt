//! Laws of what is committed.
//!
//! Each is a function that does nothing and ensures the law, so that a reader finds it among the contracts.
ghost use Rattle.std.specs.Prelude.{◌≡◌, ℕ, List};
ghost use Rattle.std.specs.FinMap.{empty};
ghost use Rattle.xod_overlay.specs.Marks.{Mark, TouchMap, overlaid, touching};
ghost use Rattle.xod_trie.specs.Tries.{TrieMap};
ghost use Rattle.xod_trie_mut.specs.Changes.{KeysFit};
ghost use Rattle.xod_commit.specs.Blocks.{Fit, FitTouches, FitsTouch, IsTreeNumber};

use xod_overlay::touched_keys_decide;

/// A map whose keys fit has keys that fit after the commit of touches whose parts fit, so the next commit may follow.
pub fn keys_fit_after_a_commit()
    ensures { (map : TrieMap) (touches : TouchMap) → KeysFit map → FitTouches touches
        → KeysFit (overlaid map touches) }
{
    touched_keys_decide();
}

/// No touched keys may be committed, and where some may be, they may be with one more that fits and is of a tree of a
/// store. So an overlay may be committed that was made by puts and removals of such keys.
pub fn touches_stay_fit()
    ensures none { (touches : ℕ → TouchMap) → ((tree : ℕ) → touches tree ≡ empty) → Fit touches }
    ensures one_more { (touches : ℕ → TouchMap) (tree : ℕ) (key : List ℕ) (mark : Mark)
        → Fit touches → IsTreeNumber tree → FitsTouch key mark
        → Fit (touching touches tree key mark) }
{}
