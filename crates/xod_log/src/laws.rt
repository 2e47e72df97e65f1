//! Laws of the definitions in `specs/`.
//!
//! Each is a function that does nothing and ensures the law, so that a reader finds it among the contracts.
ghost use Rattle.std.specs.Prelude.{◌≡◌, ◌<◌, ◌^◌, ◌++◌, ℕ, List};
ghost use Rattle.std.specs.FinMap.{get};
ghost use Rattle.xod_volume.specs.Files.{Files};
ghost use Rattle.xod_volume.specs.Crash.{Passes};
ghost use Rattle.xod_log.specs.declared.log.Log.{Log};
ghost use Rattle.xod_log.specs.Ends.{HasSealed, IsUsed, numbers, numbers_at, end_at, back_at};
ghost use Rattle.xod_log.specs.Calls.{IsElsewhere, Appends};
ghost use Rattle.xod_log.specs.Standing.{AsOpened, LeftStanding, Stands, body_file, ends_file, resumed_log};

use xod_volume::Volume;

/// A resumed log stands on a volume that is as an opening leaves it.
pub fn stands_after_opening<V: Volume>()
    ensures { (volume : V) (file end marks back target : ℕ)
        → AsOpened file end marks back (V.files volume) (V.may_leave volume (V.moment volume))
        → Stands (resumed_log file end marks back target) (V.files volume) (V.may_leave volume (V.moment volume)) }
{}

/// What is done to other files than the current pair leaves the log standing: reads give the pair as before, and what a
/// crash may leave of it is what a crash might have left.
pub fn stands_beside_other_files<V: Volume>()
    ensures { (log : Log) (before after : V)
        → get (V.files after) (body_file log) ≡ get (V.files before) (body_file log)
        → get (V.files after) (ends_file log) ≡ get (V.files before) (ends_file log)
        → ((left : Files) → V.may_leave after (V.moment after) left → (was : Files)
        × V.may_leave before (V.moment before) was
        × (get left (body_file log) ≡ get was (body_file log)) × (get left (ends_file log) ≡ get was (ends_file log)))
        → Stands log (V.files before) (V.may_leave before (V.moment before))
        → Stands log (V.files after) (V.may_leave after (V.moment after)) }
{}

/// An append to a later log file, taken or refused, leaves the log standing: the clauses `others` and `leaves` of
/// `append_block` are all that it takes.
pub fn stands_beside_an_append<V: Volume>()
    ensures { (log next : Log) (count : ℕ) (body ends : List ℕ) (before after : V) → log.file < next.file
        → ((other : ℕ) → IsElsewhere next other → get (V.files after) other ≡ get (V.files before) other)
        → Passes (V.moment before) (V.moment after) (V.may_leave before) (V.may_leave after) (Appends next count body ends)
        → Stands log (V.files before) (V.may_leave before (V.moment before))
        → Stands log (V.files after) (V.may_leave after (V.moment after)) }
{}

/// A mark that has the bytes of an end and a back says these two numbers.
pub fn numbers_are_read_back()
    ensures { (ends : List ℕ) (mark end back : ℕ) → end < 2 ^ 64 → back < 2 ^ 32
        → numbers_at ends mark ≡ numbers end back → (end_at ends mark ≡ end) × (back_at ends mark ≡ back) }
{}

/// What is sealed of a body is sealed of a longer one too.
pub fn sealed_of_a_longer_body()
    ensures { (file : ℕ) (body more : List ℕ) (left : Files) → HasSealed file body left
        → HasSealed file (body ++ more) left }
{}

/// Where a log without marks stands, its file is not used, and nothing is claimed of its body.
pub fn nothing_is_sealed_without_marks()
    ensures { (log : Log) (ends body : List ℕ) (left : Files) → log.marks ≡ 0 → LeftStanding log ends left
        → (¬ (IsUsed log.file left)) × HasSealed log.file body left }
{}
