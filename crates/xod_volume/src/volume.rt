//! The device: files by number, what a crash may leave of them, and leases of files that are read elsewhere.
//!
//! `xod_log` and the crates above work over any `Volume`, and read through any `Lease`. What a volume holds is told by
//! those in memory and not by one over real files; leases and counts of faults are told by all. What a crash may leave
//! is stated in `specs/Crash.antt`, call by call; docs/DEFINITIONS.md has it in plain words.
ghost use Rattle.std.specs.Prelude.{◌≡◌, ◌≤◌, ◌<◌, ◌+◌, ◌++◌, ◌∷◌, [], false, Bool, ℕ, List, length, take, IfOk, OnOk, OnErr, IsOk, IsErr, IsErrOf, IsSome, IsNone, IsTrue};
ghost use Rattle.std.specs.List.{All};
ghost use Rattle.std.specs.FinMap.{get, insert, remove, keys, len};
ghost use base.Fml.{GName};
ghost use Rattle.xod_base.specs.Causes.{Rose};
ghost use Rattle.xod_volume.specs.declared.volume.VolumeError.{VolumeError};
ghost use Rattle.xod_volume.specs.Files.{Files, bytes_of, size_of, overwritten};
ghost use Rattle.xod_volume.specs.Crash.{OnFile, OnBytes, Torn, Shortened, Appears, Vanishes, Passes, Rests, IsSame, Noted};
ghost use Rattle.xod_volume.specs.Leases.{holds_file, without, lent_of, Filled, Added, Stays, Unmoved};

use xod_base::{Failed, Memory};

/// Why a call that may take memory was refused.
#[derive(Clone, Copy, Debug, PartialEq, Eq)]
pub enum VolumeError {
    /// The device failed, and the volume's count of faults rose in this call.
    Failed,
    /// Memory was refused, and nothing was changed.
    Memory,
}

impl From<Memory> for VolumeError {
    ghost from_gives = { λ _ error. error ≡ VolumeError.Memory };

    fn from(_: Memory) -> Self {
        VolumeError::Memory
    }
}

/// Files as they were when they were lent. It is spent by `Volume::take_back` of the volume that lent it.
pub trait Lease {
    /// Whether it tells what it holds. It never changes.
    ghost tells: { Self → Bool };

    /// The numbers that were asked for, in that order, told or not.
    ghost list: { Self → List ℕ };

    /// The files lent, with their bytes.
    ghost lent: { Self → Files };

    /// How often it was read.
    ghost reads: { Self → ℕ };

    /// How often a call has failed.
    ghost faults: { Self → ℕ };

    /// The references that it holds.
    ghost refs: { Self → List GName };

    /// Fills `out` with bytes of a file from a place on, as far as the lent bytes go, and gives how many those are: 0
    /// for a file that was not lent, which never fails.
    fn read(&mut self, file: u64, at: u64, out: &mut [u8]) -> Result<usize, Failed>
        ensures filled { IsTrue (tells self.old) → IfOk result (λ n.
            Filled (bytes_of (lent self.old) file) at out.old out.new n) }
        ensures counted { Rose (reads self.old) (reads self.new) }
        ensures counted_once { reads self.new ≤ reads self.old + 1 }
        ensures failed { IsErr result → Rose (faults self.old) (faults self.new) }
        ensures unfailed { OnOk result (faults self.new ≡ faults self.old) }
        ensures not_lent_never_fails { IsTrue (tells self.old)
            → IsNone (get (lent self.old) file) → IsOk result }
        ensures never_falls { faults self.old ≤ faults self.new }
        ensures tells_same { tells self.new ≡ tells self.old }
        ensures list_same { list self.new ≡ list self.old }
        ensures lent_same { lent self.new ≡ lent self.old }
        ensures refs_same { refs self.new ≡ refs self.old };
}

/// Files by number.
pub trait Volume {
    /// What it lends.
    type Held: Lease;

    /// Whether it tells what it holds. It never changes.
    ghost tells: { Self → Bool };

    /// What reads give.
    ghost files: { Self → Files };

    /// The present moment, which does not fall.
    ghost moment: { Self → ℕ };

    /// What a crash at a moment may leave.
    ghost may_leave: { Self → ℕ → Files → Type 0 };

    /// How many further calls find room to be noted: only of a failed call that found none nothing may be left.
    ghost room: { Self → ℕ };

    /// The lists of the leases that are out, the newest first, told or not.
    ghost leases: { Self → List (List ℕ) };

    /// How often a call has failed.
    ghost faults: { Self → ℕ };

    /// The references that it holds.
    ghost refs: { Self → List GName };

    /// The numbers of the files, in rising order.
    fn files(&mut self) -> Result<Vec<u64>, VolumeError>
        ensures listed { IsTrue (tells self.old) → IfOk result (λ numbers.
            numbers.items ≡ keys (files self.old)) }
        ensures failed { IsErrOf result VolumeError.Failed → Rose (faults self.old) (faults self.new) }
        ensures unfailed { OnOk result (faults self.new ≡ faults self.old) }
        ensures memory { IsErrOf result VolumeError.Memory → Unmoved (moment self.old) (moment self.new)
            (leases self.old) (leases self.new) (faults self.old) (faults self.new) }
        ensures stays { Stays (tells self.old) (tells self.new) (leases self.old) (leases self.new)
            (refs self.old) (refs self.new) (faults self.old) (faults self.new) }
        ensures same { IsTrue (tells self.old) → files self.new ≡ files self.old }
        ensures makes_room { IsTrue (tells self.old)
            → OnOk result (len (files self.new) + 1024 ≤ room self.new) }
        ensures keeps_room { room self.old ≤ room self.new }

        // What a crash may leave.
        ensures rests { IsTrue (tells self.old) → Rests (moment self.old) (moment self.new)
            (may_leave self.old) (may_leave self.new) };

    /// How many bytes a file has.
    fn len(&mut self, file: u64) -> Result<u64, Failed>
        requires exists { IsTrue (tells self.old) → IsSome (get (files self.old) file) }
        ensures size { IsTrue (tells self.old) → IfOk result (λ n. n ≡ size_of (files self.old) file) }
        ensures failed { IsErr result → Rose (faults self.old) (faults self.new) }
        ensures unfailed { OnOk result (faults self.new ≡ faults self.old) }
        ensures stays { Stays (tells self.old) (tells self.new) (leases self.old) (leases self.new)
            (refs self.old) (refs self.new) (faults self.old) (faults self.new) }
        ensures same { IsTrue (tells self.old) → files self.new ≡ files self.old }
        ensures keeps_room { room self.old ≤ room self.new }

        // What a crash may leave.
        ensures rests { IsTrue (tells self.old) → Rests (moment self.old) (moment self.new)
            (may_leave self.old) (may_leave self.new) };

    /// Fills `out` with bytes of a file from a place on, as far as the file goes, and gives how many those are.
    fn read(&mut self, file: u64, at: u64, out: &mut [u8]) -> Result<usize, Failed>
        requires exists { IsTrue (tells self.old) → IsSome (get (files self.old) file) }
        ensures filled { IsTrue (tells self.old) → IfOk result (λ n.
            Filled (bytes_of (files self.old) file) at out.old out.new n) }
        ensures failed { IsErr result → Rose (faults self.old) (faults self.new) }
        ensures unfailed { OnOk result (faults self.new ≡ faults self.old) }
        ensures stays { Stays (tells self.old) (tells self.new) (leases self.old) (leases self.new)
            (refs self.old) (refs self.new) (faults self.old) (faults self.new) }
        ensures same { IsTrue (tells self.old) → files self.new ≡ files self.old }
        ensures keeps_room { room self.old ≤ room self.new }

        // What a crash may leave.
        ensures rests { IsTrue (tells self.old) → Rests (moment self.old) (moment self.new)
            (may_leave self.old) (may_leave self.new) };

    /// Makes an empty file.
    fn create(&mut self, file: u64) -> Result<(), VolumeError>
        requires absent { IsTrue (tells self.old) → IsNone (get (files self.old) file) }
        ensures created { IsTrue (tells self.old)
            → OnOk result (files self.new ≡ insert (files self.old) file []) }
        ensures refused { IsTrue (tells self.old) → OnErr result (files self.new ≡ files self.old) }
        ensures failed { IsErrOf result VolumeError.Failed → Rose (faults self.old) (faults self.new) }
        ensures unfailed { OnOk result (faults self.new ≡ faults self.old) }
        ensures memory { IsErrOf result VolumeError.Memory → Unmoved (moment self.old) (moment self.new)
            (leases self.old) (leases self.new) (faults self.old) (faults self.new) }
        ensures stays { Stays (tells self.old) (tells self.new) (leases self.old) (leases self.new)
            (refs self.old) (refs self.new) (faults self.old) (faults self.new) }
        ensures makes_room { IsTrue (tells self.old)
            → OnOk result (len (files self.new) + 1024 ≤ room self.new) }

        // What a crash may leave.
        ensures crash { IsTrue (tells self.old) → Passes (moment self.old) (moment self.new)
            (may_leave self.old) (may_leave self.new) (OnFile file Appears) }
        ensures not_yet_safe { IsTrue (tells self.old) → (left : Files)
            → may_leave self.old (moment self.old) left → IsNone (get left file)
            → may_leave self.new (moment self.new) left }
        ensures noted { IsTrue (tells self.old) → Noted (IsErrOf result VolumeError.Failed)
            (room self.old) (room self.new) (moment self.old) (moment self.new) }
        ensures may_be_kept { IsTrue (tells self.old)
            → may_leave self.new (moment self.new) (files self.new) };

    /// Puts bytes at the end of a file. After `Failed` any part of them may stand there, or others in their place.
    fn append(&mut self, file: u64, bytes: &[u8]) -> Result<(), VolumeError>
        requires exists { IsTrue (tells self.old) → IsSome (get (files self.old) file) }
        ensures appended { IsTrue (tells self.old) → OnOk result
            (files self.new ≡ insert (files self.old) file (bytes_of (files self.old) file ++ bytes.now)) }
        ensures torn { IsTrue (tells self.old) → OnFile file
            (OnBytes (Torn (size_of (files self.old) file) (length bytes.now)))
            (files self.old) (files self.new) }
        ensures unchanged { IsTrue (tells self.old) → IsErrOf result VolumeError.Memory → files self.new ≡ files self.old }
        ensures failed { IsErrOf result VolumeError.Failed → Rose (faults self.old) (faults self.new) }
        ensures unfailed { OnOk result (faults self.new ≡ faults self.old) }
        ensures memory { IsErrOf result VolumeError.Memory → Unmoved (moment self.old) (moment self.new)
            (leases self.old) (leases self.new) (faults self.old) (faults self.new) }
        ensures stays { Stays (tells self.old) (tells self.new) (leases self.old) (leases self.new)
            (refs self.old) (refs self.new) (faults self.old) (faults self.new) }
        ensures makes_room { IsTrue (tells self.old)
            → OnOk result (len (files self.new) + 1024 ≤ room self.new) }

        // What a crash may leave.
        ensures crash { IsTrue (tells self.old) → Passes (moment self.old) (moment self.new)
            (may_leave self.old) (may_leave self.new)
            (OnFile file (OnBytes (Torn (size_of (files self.old) file) (length bytes.now)))) }
        ensures not_yet_safe { IsTrue (tells self.old) → (left : Files)
            → may_leave self.old (moment self.old) left → may_leave self.new (moment self.new) left }
        ensures noted { IsTrue (tells self.old) → Noted (IsErrOf result VolumeError.Failed)
            (room self.old) (room self.new) (moment self.old) (moment self.new) }
        ensures torn_may_be_left { IsTrue (tells self.old) → IsErrOf result VolumeError.Failed → 0 < room self.old
            → (was left : Files) → may_leave self.old (moment self.old) was
            → OnFile file (OnBytes (Torn (size_of (files self.old) file) (length bytes.now))) was left
            → may_leave self.new (moment self.new) left }
        ensures may_be_kept { IsTrue (tells self.old)
            → may_leave self.new (moment self.new) (files self.new) };

    /// Writes bytes over those of a file, from a place on. After `Failed` those places hold any bytes.
    fn write_at(&mut self, file: u64, at: u64, bytes: &[u8]) -> Result<(), Failed>
        requires exists { IsTrue (tells self.old) → IsSome (get (files self.old) file) }
        requires within { IsTrue (tells self.old) → at + length bytes.now ≤ size_of (files self.old) file }
        ensures written { IsTrue (tells self.old) → OnOk result (files self.new
            ≡ insert (files self.old) file (overwritten (bytes_of (files self.old) file) at bytes.now)) }
        ensures torn { IsTrue (tells self.old) → OnFile file (OnBytes (Torn at (length bytes.now)))
            (files self.old) (files self.new) }
        ensures failed { IsErr result → Rose (faults self.old) (faults self.new) }
        ensures unfailed { OnOk result (faults self.new ≡ faults self.old) }
        ensures stays { Stays (tells self.old) (tells self.new) (leases self.old) (leases self.new)
            (refs self.old) (refs self.new) (faults self.old) (faults self.new) }

        // What a crash may leave.
        ensures crash { IsTrue (tells self.old) → Passes (moment self.old) (moment self.new)
            (may_leave self.old) (may_leave self.new) (OnFile file (OnBytes (Torn at (length bytes.now)))) }
        ensures not_yet_safe { IsTrue (tells self.old) → (left : Files)
            → may_leave self.old (moment self.old) left → may_leave self.new (moment self.new) left }
        ensures noted { IsTrue (tells self.old) → Noted (IsErr result)
            (room self.old) (room self.new) (moment self.old) (moment self.new) }
        ensures torn_may_be_left { IsTrue (tells self.old) → IsErr result → 0 < room self.old
            → (was left : Files) → may_leave self.old (moment self.old) was
            → OnFile file (OnBytes (Torn at (length bytes.now))) was left
            → may_leave self.new (moment self.new) left }
        ensures may_be_kept { IsTrue (tells self.old)
            → may_leave self.new (moment self.new) (files self.new) };

    /// Cuts a file to a length that is not above its own.
    fn cut(&mut self, file: u64, length: u64) -> Result<(), Failed>
        requires exists { IsTrue (tells self.old) → IsSome (get (files self.old) file) }
        requires no_longer { IsTrue (tells self.old) → length ≤ size_of (files self.old) file }
        ensures shortened { IsTrue (tells self.old) → OnOk result (files self.new
            ≡ insert (files self.old) file (take length (bytes_of (files self.old) file))) }
        ensures refused { IsTrue (tells self.old) → OnErr result (files self.new ≡ files self.old) }
        ensures failed { IsErr result → Rose (faults self.old) (faults self.new) }
        ensures unfailed { OnOk result (faults self.new ≡ faults self.old) }
        ensures stays { Stays (tells self.old) (tells self.new) (leases self.old) (leases self.new)
            (refs self.old) (refs self.new) (faults self.old) (faults self.new) }

        // What a crash may leave.
        ensures crash { IsTrue (tells self.old) → Passes (moment self.old) (moment self.new)
            (may_leave self.old) (may_leave self.new) (OnFile file (OnBytes (Shortened length))) }
        ensures not_yet_safe { IsTrue (tells self.old) → (left : Files)
            → may_leave self.old (moment self.old) left → may_leave self.new (moment self.new) left }
        ensures noted { IsTrue (tells self.old) → Noted (IsErr result)
            (room self.old) (room self.new) (moment self.old) (moment self.new) }
        ensures may_be_kept { IsTrue (tells self.old)
            → may_leave self.new (moment self.new) (files self.new) };

    /// Makes a file durable as it is.
    fn sync(&mut self, file: u64) -> Result<(), Failed>
        requires exists { IsTrue (tells self.old) → IsSome (get (files self.old) file) }
        ensures same { IsTrue (tells self.old) → files self.new ≡ files self.old }
        ensures failed { IsErr result → Rose (faults self.old) (faults self.new) }
        ensures unfailed { OnOk result (faults self.new ≡ faults self.old) }
        ensures stays { Stays (tells self.old) (tells self.new) (leases self.old) (leases self.new)
            (refs self.old) (refs self.new) (faults self.old) (faults self.new) }

        // What a crash may leave.
        ensures durable { IsTrue (tells self.old) → OnOk result ((left : Files)
            → may_leave self.new (moment self.new) left → get left file ≡ get (files self.old) file) }
        ensures crash { IsTrue (tells self.old) → Passes (moment self.old) (moment self.new)
            (may_leave self.old) (may_leave self.new) IsSame }
        ensures noted { IsTrue (tells self.old) → Noted (IsErr result)
            (room self.old) (room self.new) (moment self.old) (moment self.new) }
        ensures not_yet_safe { IsTrue (tells self.old) → OnErr result ((left : Files)
            → may_leave self.old (moment self.old) left → may_leave self.new (moment self.new) left) }
        ensures may_be_kept { IsTrue (tells self.old)
            → may_leave self.new (moment self.new) (files self.new) };

    /// Removes a file that no lease out names.
    fn remove(&mut self, file: u64) -> Result<(), Failed>
        requires exists { IsTrue (tells self.old) → IsSome (get (files self.old) file) }
        requires not_lent { holds_file (leases self.old) file ≡ false }
        ensures removed { IsTrue (tells self.old)
            → OnOk result (files self.new ≡ remove (files self.old) file) }
        ensures refused { IsTrue (tells self.old) → OnErr result (files self.new ≡ files self.old) }
        ensures failed { IsErr result → Rose (faults self.old) (faults self.new) }
        ensures unfailed { OnOk result (faults self.new ≡ faults self.old) }
        ensures stays { Stays (tells self.old) (tells self.new) (leases self.old) (leases self.new)
            (refs self.old) (refs self.new) (faults self.old) (faults self.new) }

        // What a crash may leave.
        ensures crash { IsTrue (tells self.old) → Passes (moment self.old) (moment self.new)
            (may_leave self.old) (may_leave self.new) (OnFile file Vanishes) }
        ensures noted { IsTrue (tells self.old) → Noted (IsErr result)
            (room self.old) (room self.new) (moment self.old) (moment self.new) }
        ensures not_yet_safe { IsTrue (tells self.old) → OnErr result ((left : Files)
            → may_leave self.old (moment self.old) left → may_leave self.new (moment self.new) left) }
        ensures may_be_kept { IsTrue (tells self.old)
            → may_leave self.new (moment self.new) (files self.new) };

    /// Lends these files as they are.
    fn lend(&mut self, list: &[u64]) -> Result<Self::Held, VolumeError>
        requires exist { IsTrue (tells self.old) → All (λ file. IsSome (get (files self.old) file)) list.now }
        ensures tells_alike { IfOk result (λ lease. Self.Held.tells lease ≡ tells self.old) }
        ensures named { IfOk result (λ lease. Self.Held.list lease ≡ list.now) }
        ensures faultless { IfOk result (λ lease. Self.Held.faults lease ≡ 0) }
        ensures holds { IsTrue (tells self.old) → IfOk result (λ lease.
            Self.Held.lent lease ≡ lent_of list.now (files self.old)) }
        ensures lent { OnOk result (leases self.new ≡ list.now ∷ leases self.old) }
        ensures refused { OnErr result (leases self.new ≡ leases self.old) }
        ensures failed { IsErrOf result VolumeError.Failed → Rose (faults self.old) (faults self.new) }
        ensures unfailed { OnOk result (faults self.new ≡ faults self.old) }
        ensures memory { IsErrOf result VolumeError.Memory → Unmoved (moment self.old) (moment self.new)
            (leases self.old) (leases self.new) (faults self.old) (faults self.new) }
        ensures never_falls { faults self.old ≤ faults self.new }
        ensures tells_same { tells self.new ≡ tells self.old }
        ensures refs_same { refs self.new ≡ refs self.old }
        ensures same { IsTrue (tells self.old) → files self.new ≡ files self.old }
        ensures makes_room { IsTrue (tells self.old)
            → OnOk result (len (files self.new) + 1024 ≤ room self.new) }
        ensures keeps_room { room self.old ≤ room self.new }

        // What a crash may leave.
        ensures rests { IsTrue (tells self.old) → Rests (moment self.old) (moment self.new)
            (may_leave self.old) (may_leave self.new) };

    /// Whether a lease out names the file.
    fn held(&self, file: u64) -> bool
        ensures { result ≡ holds_file (leases self.now) file };

    /// Takes a lease back: the first of the leases out that has its list is out no longer, where there is one.
    fn take_back(&mut self, lease: Self::Held)
        ensures back { leases self.new ≡ without (Self.Held.list lease) (leases self.old) }
        ensures added { Added (faults self.old) (Self.Held.faults lease) (faults self.new) }
        ensures never_falls { faults self.old ≤ faults self.new }
        ensures tells_same { tells self.new ≡ tells self.old }
        ensures refs_same { refs self.new ≡ refs self.old }
        ensures same { IsTrue (tells self.old) → files self.new ≡ files self.old }
        ensures keeps_room { room self.old ≤ room self.new }

        // What a crash may leave.
        ensures rests { IsTrue (tells self.old) → Rests (moment self.old) (moment self.new)
            (may_leave self.old) (may_leave self.new) };
}
