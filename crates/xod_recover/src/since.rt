//! What images have stored since a moment goes on over calls.
//!
//! Each is a function that does nothing and ensures the law. A struct that keeps a start can so
//! keep, by its type, what every crash since then has left.
ghost use Rattle.std.specs.Prelude.{◌≡◌, ◌≤◌, ◌∷◌, [], ℕ, List, Some};
ghost use Rattle.std.specs.List.{Contains};
ghost use Rattle.xod_volume.specs.Files.{Files};
ghost use Rattle.xod_volume.specs.Crash.{Passes, Rests};
ghost use Rattle.xod_recover.specs.Images.{Stores};
ghost use Rattle.xod_recover.specs.Since.{AllSince};
ghost use Rattle.xod_recover.specs.Stores.{Stored, stored_in};

use xod_volume::Volume;

/// Where each image since a moment stores one of some, it does so over a call after which images
/// store what the images before did, or one of these. It does so over a call in which no time
/// passes, and with more to be stored.
pub fn what_was_stored_goes_on<V: Volume>()
    ensures over_a_call { (list : List Stored) (newest : Stored) (since : ℕ) (before after : V)
        → since ≤ V.moment before → Contains list newest
        → Passes (V.moment before) (V.moment after) (V.may_leave before) (V.may_leave after)
        (Stores (Some newest))
        → AllSince list since (V.moment before) (V.may_leave before)
        → AllSince list since (V.moment after) (V.may_leave after) }
    ensures over_a_rest { (list : List Stored) (since : ℕ) (before after : V)
        → Rests (V.moment before) (V.moment after) (V.may_leave before) (V.may_leave after)
        → AllSince list since (V.moment before) (V.may_leave before)
        → AllSince list since (V.moment after) (V.may_leave after) }
    ensures with_one_more { (list : List Stored) (one : Stored) (since : ℕ) (volume : V)
        → AllSince list since (V.moment volume) (V.may_leave volume)
        → AllSince (one ∷ list) since (V.moment volume) (V.may_leave volume) }
{}

/// Once each image stores one thing, as after a sync, that alone is what images store from there.
pub fn what_is_stored_begins<V: Volume>()
    ensures { (one : Stored) (volume : V)
        → ((left : Files) → V.may_leave volume (V.moment volume) left → stored_in left ≡ Some one)
        → AllSince (one ∷ []) (V.moment volume) (V.moment volume) (V.may_leave volume) }
{}
