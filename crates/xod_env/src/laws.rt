//! A law of the files that snapshots are lent.
//!
//! It is a function that does nothing and ensures the law, so that a reader finds it among the contracts.
ghost use Rattle.std.specs.Prelude.{◌≡◌, ◌≤◌, ℕ};
ghost use Rattle.std.specs.FinMap.{keys};
ghost use Rattle.std.specs.List.{filter};
ghost use Rattle.xod_pages.specs.Lent.{lent_bodies};
ghost use Rattle.xod_volume.specs.Files.{Files};
ghost use Rattle.xod_volume.specs.Leases.{lent_of};
ghost use Rattle.xod_env.specs.Bodies.{is_body_up_to};

/// Where the bodies up to that of a log file are lent, each of them is lent as the volume has it.
pub fn bodies_are_lent_whole()
    ensures { (files : Files) (current file : ℕ) → file ≤ current
        → lent_bodies (lent_of (filter (is_body_up_to current) (keys files)) files) file
        ≡ lent_bodies files file }
{}
