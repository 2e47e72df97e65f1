//! Laws of what an opening needs of the images.
//!
//! Each is a function that does nothing and ensures the law.
ghost use Rattle.std.specs.Prelude.{◌≡◌, ◌<◌, ℕ};
ghost use Rattle.xod_volume.specs.Files.{Files, bytes_of};
ghost use Rattle.xod_log.specs.Ends.{ends_of};
ghost use Rattle.xod_recover.specs.Check.{Newest, check};
ghost use Rattle.xod_recover.specs.Images.{Settled};
ghost use Rattle.xod_recover.specs.Opened.{open_count};
ghost use Rattle.xod_recover.specs.Stores.{stored_in};
ghost use Rattle.xod_recover.specs.Tails.{AllNear, AllNearBut, IsFoundIn, IsNear};

use xod_volume::Volume;

/// Each image of a settled volume is near what was found, and so it is but for any log file above.
pub fn settled_volumes_are_near<V: Volume>()
    ensures near { (newest : Newest) (volume : V) → IsFoundIn newest (V.files volume)
        → Settled (V.files volume) (V.may_leave volume (V.moment volume))
        → AllNear newest (V.files volume) (V.may_leave volume (V.moment volume)) }
    ensures but_one { (newest : Newest) (above : ℕ) (volume : V) → newest.file < above
        → IsFoundIn newest (V.files volume)
        → Settled (V.files volume) (V.may_leave volume (V.moment volume))
        → AllNearBut newest above (V.files volume) (V.may_leave volume (V.moment volume)) }
{}

/// An image that is near, and has the mark that names the root found as its last open one, is
/// decided as reads are and stores the same.
pub fn near_images_store_what_was_found()
    ensures decided { (newest : Newest) (files left : Files) → IsFoundIn newest files
        → IsNear newest files left
        → open_count (bytes_of left (ends_of newest.file)) ≡ newest.marks
        → check left ≡ check files }
    ensures stored { (newest : Newest) (files left : Files) → IsFoundIn newest files
        → IsNear newest files left
        → open_count (bytes_of left (ends_of newest.file)) ≡ newest.marks
        → stored_in left ≡ stored_in files }
{}
