//! A law of what a crash may leave of an environment.
//!
//! It is a function that does nothing and ensures the law.
ghost use Rattle.std.specs.Prelude.{◌≡◌, ℕ, IsTrue, Some};
ghost use Rattle.xod_log.specs.declared.log.Log.{Log};
ghost use Rattle.xod_recover.specs.Images.{Settled};
ghost use Rattle.xod_recover.specs.Stores.{stored_in};
ghost use Rattle.xod_root.specs.Roots.{Roots};
ghost use Rattle.xod_env.specs.Envs.{ArePlaced, IsAt, IsSteady, newest_stored};

use xod_volume::Volume;

/// Where nothing is to seal, an environment on a settled volume is steady, and what reads give
/// stores its newest commit.
pub fn settled_volumes_are_steady<V: Volume>()
    ensures steady { (log : Log) (roots : Roots) (commit : ℕ) (volume : V)
        → IsAt log roots commit (V.files volume) (V.may_leave volume (V.moment volume))
        → IsTrue log.is_sealed
        → Settled (V.files volume) (V.may_leave volume (V.moment volume))
        → IsSteady log (V.files volume) (V.may_leave volume (V.moment volume)) }
    ensures stored { (log : Log) (roots : Roots) (commit : ℕ) (volume : V)
        → IsAt log roots commit (V.files volume) (V.may_leave volume (V.moment volume))
        → ArePlaced log roots → IsTrue log.is_sealed
        → stored_in (V.files volume)
        ≡ Some (newest_stored log.file (V.files volume) roots commit) }
{}
