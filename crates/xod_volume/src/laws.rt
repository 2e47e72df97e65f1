//! Laws of the definitions that the crates above rest on. Each is the clause of a function that does nothing.
ghost use Rattle.std.specs.Prelude.{List, length};
ghost use Rattle.xod_volume.specs.Files.{Files};
ghost use Rattle.xod_volume.specs.declared.history.Call.{Call};
ghost use Rattle.xod_volume.specs.Record.{files_now, image_at};

/// What reads give is always among what a crash may leave.
pub fn reads_may_be_left()
    ensures { (start : Files) (calls : List Call)
        → image_at start calls (length calls) (files_now start calls) }
{}
