//! The log: where blocks go, and what makes them outlive a crash.
ghost use Rattle.std.specs.Prelude.{◌≡◌, ◌<◌, ◌≤◌, ◌⊎◌, ◌↔◌, ◌+◌, ◌*◌, ◌^◌, ◌++◌, ℕ, [], Bool, true, false, length, is_ok, IfOk, IsOk, IsErr, OnOk, OnErr, IsErrOf, IsTrue, Ok, Err, Some, if◌then◌else◌};
ghost use mathlib.Core.Logic.{◌≢◌};
ghost use Rattle.std.specs.FinMap.{get, insert};
ghost use Rattle.xod_base.specs.Causes.{Rose};
ghost use Rattle.xod_volume.specs.Files.{Files, bytes_of, size_of};
ghost use Rattle.xod_volume.specs.Crash.{OnFile, OnBytes, Torn, Passes};
ghost use Rattle.xod_volume.specs.Leases.{Stays};
ghost use Rattle.xod_log.specs.declared.error.LogError.{LogError};
ghost use Rattle.xod_log.specs.Ends.{IsUsed, body_of, ends_of};
ghost use Rattle.xod_log.specs.Standing.{IsDurablePair, IsSettled, Stands, body_file, ends_file, has_pair, is_due, is_last, last_file, resumed_log, sealed_log, empty_log, rolled_log, receiving_log, appended_log, next_place_of};
ghost use Rattle.xod_log.specs.Calls.{IsElsewhere, IsEmptyPair, MakesPair, EndsWith, IsRolled, Seals, Rolls, Appends, BodyFirst, KeepsClaims, Outlives, marked_ends, sealed_ends};

use crate::device::{append_synced, write_synced};
use crate::error::LogError;
use crate::mark::{mark_numbers, mark_place};
use crate::pair::{body_file, ends_file, make_pair};
use xod_block::Address;
use xod_volume::Volume;

/// The current file of a log, how far it has come, and where it is to be rolled.
///
/// `end` is the length of the body, `marks` the number of open marks, `back` how far before its end the root of the last
/// block begins; `is_sealed` says that nothing was appended since the last seal.
#[derive(Clone, Copy, Debug)]
pub struct Log {
    file: u32,
    end: u64,
    marks: u64,
    back: u32,
    is_sealed: bool,
    target: u64,
}

impl Log {
    /// A log on a volume without used log files: makes the pair of file 0. `target` is the length at which a file is rolled.
    pub fn fresh<V: Volume>(volume: &mut V, target: u64) -> Result<Self, LogError>
        requires unused { IsTrue (V.tells volume.old) → (file : ℕ) → file ≤ last_file
            → ¬ (IsUsed file (V.files volume.old)) }
        ensures log { IfOk result (λ log. log ≡ empty_log 0 target) }
        ensures stands { IsTrue (V.tells volume.old) → IfOk result (λ log.
            Stands log (V.files volume.new) (V.may_leave volume.new (V.moment volume.new))) }
        ensures made { IsTrue (V.tells volume.old) → OnOk result (IsEmptyPair 0 (V.files volume.new)) }
        ensures reads { IsTrue (V.tells volume.old) → MakesPair 0 (V.files volume.old) (V.files volume.new) }
        ensures others { IsTrue (V.tells volume.old) → (other : ℕ) → 2 ≤ other
            → get (V.files volume.new) other ≡ get (V.files volume.old) other }
        ensures numbers_left { (last : ℕ) → ¬ (IsErrOf result (LogError.NumbersSpent last)) }
        ensures failed { IsErrOf result LogError.Device → Rose (V.faults volume.old) (V.faults volume.new) }
        ensures unfailed { ¬ (IsErrOf result LogError.Device) → V.faults volume.new ≡ V.faults volume.old }
        ensures stays { Stays (V.tells volume.old) (V.tells volume.new) (V.leases volume.old) (V.leases volume.new)
            (V.refs volume.old) (V.refs volume.new) (V.faults volume.old) (V.faults volume.new) }

        // What a crash may leave.
        ensures kept { IsTrue (V.tells volume.old) → V.may_leave volume.old (V.moment volume.old) (V.files volume.old)
            → V.may_leave volume.new (V.moment volume.new) (V.files volume.new) }
        ensures leaves { IsTrue (V.tells volume.old) → Passes (V.moment volume.old) (V.moment volume.new)
            (V.may_leave volume.old) (V.may_leave volume.new) (MakesPair 0) }
        ensures durable { IsTrue (V.tells volume.old) → OnOk result (
            IsDurablePair 0 (V.files volume.new) (V.may_leave volume.new (V.moment volume.new))) }
        ensures settled { IsTrue (V.tells volume.old) → ¬ (IsErrOf result LogError.Device) → (other : ℕ)
            → IsSettled other (V.files volume.old) (V.may_leave volume.old (V.moment volume.old))
            → IsSettled other (V.files volume.new) (V.may_leave volume.new (V.moment volume.new)) }
    {
        let mut is_there = false;
        make_pair(volume, 0, &mut is_there)?;
        Ok(Log::empty(0, target))
    }

    /// A log as an opening found it, with nothing to seal. It stands on a volume that is as an opening leaves it with these
    /// numbers (`stands_after_opening`).
    pub fn resume(file: u32, end: u64, marks: u64, back: u32, target: u64) -> Self
        ensures { result ≡ resumed_log file end marks back target }
    {
        Log {
            file,
            end,
            marks,
            back,
            is_sealed: true,
            target,
        }
    }

    /// A log on a pair without blocks.
    fn empty(file: u32, target: u64) -> Self
        ensures { result ≡ empty_log file target }
    {
        Log::resume(file, 0, 0, 0, target)
    }

    /// The number of the current log file.
    pub fn file(&self) -> u32
        ensures { result ≡ self.now.file }
    {
        self.file
    }

    /// Where the next block will begin: behind the last one, or at the front of the next file where a roll comes first. In
    /// the last file it is that file's end.
    pub fn next_place(&self) -> Address
        ensures { result ≡ next_place_of self.now }
    {
        match self.file.checked_add(1) {
            Some(file) if self.is_due() => Address { file, at: 0 },
            _ => Address {
                file: self.file,
                at: self.end,
            },
        }
    }

    /// Whether a roll comes before the next block.
    pub fn is_due(&self) -> bool
        ensures { result ≡ is_due self.now }
    {
        self.target <= self.end
    }

    /// Appends a block, whose root begins `back` bytes before its end, and gives where it begins. The file is rolled first
    /// where it has reached the target. After a refusal the log is on the same file.
    pub fn append_block<V: Volume>(
        &mut self,
        volume: &mut V,
        block: &[u8],
        back: u32,
    ) -> Result<Address, LogError>
        requires stands { IsTrue (V.tells volume.old) → Stands self.old (V.files volume.old)
            (V.may_leave volume.old (V.moment volume.old)) }
        ensures place { IfOk result (λ place. place ≡ next_place_of self.old) }
        ensures whole { IsTrue (V.tells volume.old) → IfOk result (λ place.
            EndsWith (V.files volume.new) place block.now) }
        ensures behind_it { IfOk result (λ place. (self.new.file ≡ place.file)
            × (self.new.end ≡ place.at + length block.now)) }
        ensures fits { OnOk result (self.new.end < 2 ^ 64) }
        ensures log { OnOk result (self.new ≡ appended_log (receiving_log self.old) (length block.now) back) }
        ensures refused { OnErr result ((self.new ≡ self.old)
            ⊎ ((is_due self.old ≡ true) × (self.new ≡ sealed_log self.old))) }
        ensures stands_on { IsTrue (V.tells volume.old) → ¬ (IsErrOf result LogError.Device)
            → Stands self.new (V.files volume.new) (V.may_leave volume.new (V.moment volume.new)) }
        ensures behind { IsTrue (V.tells volume.old) → is_due self.old ≡ false → OnOk result (V.files volume.new
            ≡ insert (V.files volume.old) (body_file self.old) (bytes_of (V.files volume.old) (body_file self.old) ++ block.now)) }
        ensures rolled { IsTrue (V.tells volume.old) → is_due self.old ≡ true → OnOk result (
            IsRolled self.old block.now (V.files volume.old) (V.files volume.new)) }
        ensures unchanged { IsTrue (V.tells volume.old) → is_due self.old ≡ false → IsErrOf result LogError.Memory
            → (V.files volume.new ≡ V.files volume.old) × (V.moment volume.new ≡ V.moment volume.old) }
        ensures others { IsTrue (V.tells volume.old) → (other : ℕ) → IsElsewhere self.old other
            → get (V.files volume.new) other ≡ get (V.files volume.old) other }
        ensures reads { IsTrue (V.tells volume.old) → Appends self.old (length block.now) (bytes_of (V.files volume.old) (body_file self.old))
            (bytes_of (V.files volume.old) (ends_file self.old)) (V.files volume.old) (V.files volume.new) }
        ensures spent { ((is_due self.old ≡ true) × (self.old.file ≡ last_file)) ↔ (result ≡ Err (LogError.NumbersSpent last_file)) }
        ensures spent_only { (last : ℕ) → IsErrOf result (LogError.NumbersSpent last) → last ≡ last_file }
        ensures untouched { (last : ℕ) → IsErrOf result (LogError.NumbersSpent last)
            → (self.new ≡ self.old) × (volume.new ≡ volume.old) }
        ensures failed { IsErrOf result LogError.Device → Rose (V.faults volume.old) (V.faults volume.new) }
        ensures unfailed { ¬ (IsErrOf result LogError.Device) → V.faults volume.new ≡ V.faults volume.old }
        ensures stays { Stays (V.tells volume.old) (V.tells volume.new) (V.leases volume.old) (V.leases volume.new)
            (V.refs volume.old) (V.refs volume.new) (V.faults volume.old) (V.faults volume.new) }

        // What a crash may leave.
        ensures kept { IsTrue (V.tells volume.old) → V.may_leave volume.old (V.moment volume.old) (V.files volume.old)
            → V.may_leave volume.new (V.moment volume.new) (V.files volume.new) }
        ensures leaves { IsTrue (V.tells volume.old) → Passes (V.moment volume.old) (V.moment volume.new)
            (V.may_leave volume.old) (V.may_leave volume.new) (Appends self.old (length block.now)
            (bytes_of (V.files volume.old) (body_file self.old)) (bytes_of (V.files volume.old) (ends_file self.old))) }
        ensures claims { IsTrue (V.tells volume.old) → KeepsClaims self.old (V.files volume.old)
            (V.moment volume.old) (V.moment volume.new) (V.may_leave volume.old) (V.may_leave volume.new) }
        ensures durable { IsTrue (V.tells volume.old) → is_due self.old ≡ true → OnOk result (
            Outlives self.old (V.files volume.new) (V.may_leave volume.new (V.moment volume.new))) }
        ensures settled { IsTrue (V.tells volume.old) → ¬ (IsErrOf result LogError.Device)
            → (other : ℕ) → other ≢ ends_file self.old → other ≢ body_file self.new
            → IsSettled other (V.files volume.old) (V.may_leave volume.old (V.moment volume.old))
            → IsSettled other (V.files volume.new) (V.may_leave volume.new (V.moment volume.new)) }
    {
        if !self.is_due() {
            return self.append_here(volume, block, back);
        }
        let mut has_next = false; // not asked here
        let mut next = self.make_next(volume, &mut has_next)?;
        let place = next.append_here(volume, block, back)?;
        *self = next;
        Ok(place)
    }

    /// Makes all that was appended outlive a crash; does nothing where nothing was appended since the last seal. After
    /// `Memory` the next mark may have its numbers, and its gate is closed: the next seal writes it again.
    pub fn seal<V: Volume>(&mut self, volume: &mut V) -> Result<(), LogError>
        requires stands { IsTrue (V.tells volume.old) → Stands self.old (V.files volume.old)
            (V.may_leave volume.old (V.moment volume.old)) }
        ensures log { self.new ≡ (if is_ok result then sealed_log self.old else self.old) }
        ensures nothing_to_do { self.old.is_sealed ≡ true → IsOk result × (volume.new ≡ volume.old) }
        ensures too_many_marks { self.old.is_sealed ≡ false → 2 ^ 64 ≤ 13 * (self.old.marks + 2)
            → (result ≡ Err LogError.Memory) × (volume.new ≡ volume.old) }
        ensures stands_on { IsTrue (V.tells volume.old) → ¬ (IsErrOf result LogError.Device)
            → Stands self.new (V.files volume.new) (V.may_leave volume.new (V.moment volume.new)) }
        ensures ends { IsTrue (V.tells volume.old) → OnOk result (get (V.files volume.new) (ends_file self.old)
            ≡ Some (sealed_ends self.old (bytes_of (V.files volume.old) (ends_file self.old)))) }
        ensures others { IsTrue (V.tells volume.old) → (other : ℕ) → other ≢ ends_file self.old
            → get (V.files volume.new) other ≡ get (V.files volume.old) other }
        ensures reads { IsTrue (V.tells volume.old) → Seals self.old (bytes_of (V.files volume.old) (body_file self.old))
            (bytes_of (V.files volume.old) (ends_file self.old)) (V.files volume.old) (V.files volume.new) }
        ensures numbers_left { (last : ℕ) → ¬ (IsErrOf result (LogError.NumbersSpent last)) }
        ensures failed { IsErrOf result LogError.Device → Rose (V.faults volume.old) (V.faults volume.new) }
        ensures unfailed { ¬ (IsErrOf result LogError.Device) → V.faults volume.new ≡ V.faults volume.old }
        ensures stays { Stays (V.tells volume.old) (V.tells volume.new) (V.leases volume.old) (V.leases volume.new)
            (V.refs volume.old) (V.refs volume.new) (V.faults volume.old) (V.faults volume.new) }

        // What a crash may leave.
        ensures kept { IsTrue (V.tells volume.old) → V.may_leave volume.old (V.moment volume.old) (V.files volume.old)
            → V.may_leave volume.new (V.moment volume.new) (V.files volume.new) }
        ensures leaves { IsTrue (V.tells volume.old) → Passes (V.moment volume.old) (V.moment volume.new)
            (V.may_leave volume.old) (V.may_leave volume.new) (Seals self.old
            (bytes_of (V.files volume.old) (body_file self.old)) (bytes_of (V.files volume.old) (ends_file self.old))) }
        ensures claims { IsTrue (V.tells volume.old) → KeepsClaims self.old (V.files volume.old)
            (V.moment volume.old) (V.moment volume.new) (V.may_leave volume.old) (V.may_leave volume.new) }
        ensures durable { IsTrue (V.tells volume.old) → OnOk result (
            Outlives self.old (V.files volume.new) (V.may_leave volume.new (V.moment volume.new))) }
    {
        if self.is_sealed {
            return Ok(());
        }
        let Some(place) = mark_place(self.marks) else {
            return Err(LogError::Memory);
        };
        self.write_mark(volume, place)?;
        self.marks += 1;
        self.is_sealed = true;
        Ok(())
    }

    /// Seals, and goes on to the next file, whose pair is made. After a refusal the log is on the same file, which may be
    /// sealed, and the next pair may be there, unused.
    pub fn roll<V: Volume>(&mut self, volume: &mut V) -> Result<(), LogError>
        requires stands { IsTrue (V.tells volume.old) → Stands self.old (V.files volume.old)
            (V.may_leave volume.old (V.moment volume.old)) }
        ensures log { OnOk result (self.new ≡ rolled_log self.old) }
        ensures refused { OnErr result ((self.new ≡ self.old) ⊎ (self.new ≡ sealed_log self.old)) }
        ensures stands_on { IsTrue (V.tells volume.old) → ¬ (IsErrOf result LogError.Device)
            → Stands self.new (V.files volume.new) (V.may_leave volume.new (V.moment volume.new)) }
        ensures rolled { IsTrue (V.tells volume.old) → OnOk result (
            IsRolled self.old [] (V.files volume.old) (V.files volume.new)) }
        ensures others { IsTrue (V.tells volume.old) → (other : ℕ) → IsElsewhere self.old other
            → get (V.files volume.new) other ≡ get (V.files volume.old) other }
        ensures reads { IsTrue (V.tells volume.old) → Rolls self.old (bytes_of (V.files volume.old) (body_file self.old))
            (bytes_of (V.files volume.old) (ends_file self.old)) (V.files volume.old) (V.files volume.new) }
        ensures spent { (self.old.file ≡ last_file) ↔ (result ≡ Err (LogError.NumbersSpent last_file)) }
        ensures spent_only { (last : ℕ) → IsErrOf result (LogError.NumbersSpent last) → last ≡ last_file }
        ensures untouched { (last : ℕ) → IsErrOf result (LogError.NumbersSpent last)
            → (self.new ≡ self.old) × (volume.new ≡ volume.old) }
        ensures failed { IsErrOf result LogError.Device → Rose (V.faults volume.old) (V.faults volume.new) }
        ensures unfailed { ¬ (IsErrOf result LogError.Device) → V.faults volume.new ≡ V.faults volume.old }
        ensures stays { Stays (V.tells volume.old) (V.tells volume.new) (V.leases volume.old) (V.leases volume.new)
            (V.refs volume.old) (V.refs volume.new) (V.faults volume.old) (V.faults volume.new) }

        // What a crash may leave.
        ensures kept { IsTrue (V.tells volume.old) → V.may_leave volume.old (V.moment volume.old) (V.files volume.old)
            → V.may_leave volume.new (V.moment volume.new) (V.files volume.new) }
        ensures leaves { IsTrue (V.tells volume.old) → Passes (V.moment volume.old) (V.moment volume.new)
            (V.may_leave volume.old) (V.may_leave volume.new) (Rolls self.old
            (bytes_of (V.files volume.old) (body_file self.old)) (bytes_of (V.files volume.old) (ends_file self.old))) }
        ensures claims { IsTrue (V.tells volume.old) → KeepsClaims self.old (V.files volume.old)
            (V.moment volume.old) (V.moment volume.new) (V.may_leave volume.old) (V.may_leave volume.new) }
        ensures durable { IsTrue (V.tells volume.old) → OnOk result (
            Outlives self.old (V.files volume.new) (V.may_leave volume.new (V.moment volume.new))) }
        ensures settled { IsTrue (V.tells volume.old) → ¬ (IsErrOf result LogError.Device)
            → (other : ℕ) → other ≢ ends_file self.old
            → IsSettled other (V.files volume.old) (V.may_leave volume.old (V.moment volume.old))
            → IsSettled other (V.files volume.new) (V.may_leave volume.new (V.moment volume.new)) }
    {
        let mut has_next = false; // not asked here
        *self = self.make_next(volume, &mut has_next)?;
        Ok(())
    }

    /// Seals, makes the next pair, and gives the log on it, without going on to it: `self` stays on the current file.
    /// `has_next` says whether the next log file is there, before the call and after it. Where a block is then appended to
    /// the log given, and refused, `self` goes on standing (`stands_beside_an_append`).
    pub fn prepare_next<V: Volume>(
        &mut self,
        volume: &mut V,
        has_next: &mut bool,
    ) -> Result<Log, LogError>
        requires stands { IsTrue (V.tells volume.old) → Stands self.old (V.files volume.old)
            (V.may_leave volume.old (V.moment volume.old)) }
        requires next_known { IsTrue (V.tells volume.old)
            → has_next.old ≡ has_pair (V.files volume.old) (self.old.file + 1) }
        ensures next { IfOk result (λ next. next ≡ rolled_log self.old) }
        ensures log { OnOk result (self.new ≡ sealed_log self.old) }
        ensures refused { OnErr result ((self.new ≡ self.old) ⊎ (self.new ≡ sealed_log self.old)) }
        ensures stands_on { IsTrue (V.tells volume.old) → ¬ (IsErrOf result LogError.Device)
            → Stands self.new (V.files volume.new) (V.may_leave volume.new (V.moment volume.new)) }
        ensures next_stands { IsTrue (V.tells volume.old) → IfOk result (λ next.
            Stands next (V.files volume.new) (V.may_leave volume.new (V.moment volume.new))) }
        ensures rolled { IsTrue (V.tells volume.old) → OnOk result (
            IsRolled self.old [] (V.files volume.old) (V.files volume.new)) }
        ensures next_pair { IsTrue (V.tells volume.old) → OnOk result (
            IsEmptyPair (self.old.file + 1) (V.files volume.new)) }
        ensures next_known { IsTrue (V.tells volume.old)
            → has_next.new ≡ has_pair (V.files volume.new) (self.old.file + 1) }
        ensures made { OnOk result (has_next.new ≡ true) }
        ensures never_lost { has_next.old ≡ true → has_next.new ≡ true }
        ensures spent_leaves_it { (last : ℕ) → IsErrOf result (LogError.NumbersSpent last)
            → has_next.new ≡ has_next.old }
        ensures others { IsTrue (V.tells volume.old) → (other : ℕ) → IsElsewhere self.old other
            → get (V.files volume.new) other ≡ get (V.files volume.old) other }
        ensures reads { IsTrue (V.tells volume.old) → Rolls self.old (bytes_of (V.files volume.old) (body_file self.old))
            (bytes_of (V.files volume.old) (ends_file self.old)) (V.files volume.old) (V.files volume.new) }
        ensures spent { (self.old.file ≡ last_file) ↔ (result ≡ Err (LogError.NumbersSpent last_file)) }
        ensures spent_only { (last : ℕ) → IsErrOf result (LogError.NumbersSpent last) → last ≡ last_file }
        ensures untouched { (last : ℕ) → IsErrOf result (LogError.NumbersSpent last)
            → (self.new ≡ self.old) × (volume.new ≡ volume.old) }
        ensures failed { IsErrOf result LogError.Device → Rose (V.faults volume.old) (V.faults volume.new) }
        ensures unfailed { ¬ (IsErrOf result LogError.Device) → V.faults volume.new ≡ V.faults volume.old }
        ensures stays { Stays (V.tells volume.old) (V.tells volume.new) (V.leases volume.old) (V.leases volume.new)
            (V.refs volume.old) (V.refs volume.new) (V.faults volume.old) (V.faults volume.new) }

        // What a crash may leave.
        ensures kept { IsTrue (V.tells volume.old) → V.may_leave volume.old (V.moment volume.old) (V.files volume.old)
            → V.may_leave volume.new (V.moment volume.new) (V.files volume.new) }
        ensures leaves { IsTrue (V.tells volume.old) → Passes (V.moment volume.old) (V.moment volume.new)
            (V.may_leave volume.old) (V.may_leave volume.new) (Rolls self.old
            (bytes_of (V.files volume.old) (body_file self.old)) (bytes_of (V.files volume.old) (ends_file self.old))) }
        ensures claims { IsTrue (V.tells volume.old) → KeepsClaims self.old (V.files volume.old)
            (V.moment volume.old) (V.moment volume.new) (V.may_leave volume.old) (V.may_leave volume.new) }
        ensures durable { IsTrue (V.tells volume.old) → OnOk result (
            Outlives self.old (V.files volume.new) (V.may_leave volume.new (V.moment volume.new))) }
        ensures next_durable { IsTrue (V.tells volume.old) → OnOk result (IsDurablePair (self.old.file + 1)
            (V.files volume.new) (V.may_leave volume.new (V.moment volume.new))) }
        ensures settled { IsTrue (V.tells volume.old) → ¬ (IsErrOf result LogError.Device)
            → (other : ℕ) → other ≢ ends_file self.old
            → IsSettled other (V.files volume.old) (V.may_leave volume.old (V.moment volume.old))
            → IsSettled other (V.files volume.new) (V.may_leave volume.new (V.moment volume.new)) }
    {
        let next = self.make_next(volume, has_next)?;
        Ok(next)
    }

    // ---- the steps

    /// Appends a block behind the last one, without a roll.
    fn append_here<V: Volume>(
        &mut self,
        volume: &mut V,
        block: &[u8],
        back: u32,
    ) -> Result<Address, LogError>
        requires stands { IsTrue (V.tells volume.old) → Stands self.old (V.files volume.old)
            (V.may_leave volume.old (V.moment volume.old)) }
        ensures place { IfOk result (λ place. place ≡ record { file = self.old.file; at = self.old.end }) }
        ensures whole { IsTrue (V.tells volume.old) → IfOk result (λ place.
            EndsWith (V.files volume.new) place block.now) }
        ensures fits { OnOk result (self.new.end < 2 ^ 64) }
        ensures log { self.new ≡ (if is_ok result then appended_log self.old (length block.now) back else self.old) }
        ensures stands_on { IsTrue (V.tells volume.old) → ¬ (IsErrOf result LogError.Device)
            → Stands self.new (V.files volume.new) (V.may_leave volume.new (V.moment volume.new)) }
        ensures behind { IsTrue (V.tells volume.old) → OnOk result (V.files volume.new
            ≡ insert (V.files volume.old) (body_file self.old) (bytes_of (V.files volume.old) (body_file self.old) ++ block.now)) }
        ensures unchanged { IsTrue (V.tells volume.old) → IsErrOf result LogError.Memory
            → V.files volume.new ≡ V.files volume.old }
        ensures still { IsErrOf result LogError.Memory → V.moment volume.new ≡ V.moment volume.old }
        ensures settled { IsTrue (V.tells volume.old) → ¬ (IsErrOf result LogError.Device) → OnErr result ((other : ℕ)
            → IsSettled other (V.files volume.old) (V.may_leave volume.old (V.moment volume.old))
            → IsSettled other (V.files volume.new) (V.may_leave volume.new (V.moment volume.new))) }
        ensures others { IsTrue (V.tells volume.old) → (other : ℕ) → other ≢ body_file self.old
            → get (V.files volume.new) other ≡ get (V.files volume.old) other }
        ensures torn { IsTrue (V.tells volume.old) → OnFile (body_file self.old)
            (OnBytes (Torn self.old.end (length block.now))) (V.files volume.old) (V.files volume.new) }
        ensures numbers_left { (last : ℕ) → ¬ (IsErrOf result (LogError.NumbersSpent last)) }
        ensures failed { IsErrOf result LogError.Device → Rose (V.faults volume.old) (V.faults volume.new) }
        ensures unfailed { ¬ (IsErrOf result LogError.Device) → V.faults volume.new ≡ V.faults volume.old }
        ensures stays { Stays (V.tells volume.old) (V.tells volume.new) (V.leases volume.old) (V.leases volume.new)
            (V.refs volume.old) (V.refs volume.new) (V.faults volume.old) (V.faults volume.new) }
        ensures kept { IsTrue (V.tells volume.old) → V.may_leave volume.old (V.moment volume.old) (V.files volume.old)
            → V.may_leave volume.new (V.moment volume.new) (V.files volume.new) }
        ensures crash { IsTrue (V.tells volume.old) → Passes (V.moment volume.old) (V.moment volume.new)
            (V.may_leave volume.old) (V.may_leave volume.new)
            (OnFile (body_file self.old) (OnBytes (Torn self.old.end (length block.now)))) }
    {
        let place = Address {
            file: self.file,
            at: self.end,
        };
        let Some(end) = self.end.checked_add(block.len() as u64) else {
            return Err(LogError::Memory);
        };
        volume.append(body_file(self.file), block)?;
        self.end = end;
        self.back = back;
        self.is_sealed = false;
        Ok(place)
    }

    /// Writes the next mark at its place in the ends, and opens it: the body first, then the numbers and the mark that
    /// follows, then the gate, each durable before the next is written.
    fn write_mark<V: Volume>(&self, volume: &mut V, place: u64) -> Result<(), LogError>
        requires unsealed { self.now.is_sealed ≡ false }
        requires place { place ≡ 13 * self.now.marks }
        requires room { 13 * (self.now.marks + 2) < 2 ^ 64 }
        requires stands { IsTrue (V.tells volume.old) → Stands self.now (V.files volume.old)
            (V.may_leave volume.old (V.moment volume.old)) }
        ensures ends { IsTrue (V.tells volume.old) → OnOk result (get (V.files volume.new) (ends_file self.now)
            ≡ Some (marked_ends self.now (bytes_of (V.files volume.old) (ends_file self.now)))) }
        ensures others { IsTrue (V.tells volume.old) → (other : ℕ) → other ≢ ends_file self.now
            → get (V.files volume.new) other ≡ get (V.files volume.old) other }
        ensures reads { IsTrue (V.tells volume.old) → Seals self.now (bytes_of (V.files volume.old) (body_file self.now))
            (bytes_of (V.files volume.old) (ends_file self.now)) (V.files volume.old) (V.files volume.new) }
        ensures durable { IsTrue (V.tells volume.old) → OnOk result (IsDurablePair self.now.file
            (V.files volume.new) (V.may_leave volume.new (V.moment volume.new))) }
        ensures memory { IsTrue (V.tells volume.old) → IsErrOf result LogError.Memory
            → Stands self.now (V.files volume.new) (V.may_leave volume.new (V.moment volume.new)) }
        ensures numbers_left { (last : ℕ) → ¬ (IsErrOf result (LogError.NumbersSpent last)) }
        ensures failed { IsErrOf result LogError.Device → Rose (V.faults volume.old) (V.faults volume.new) }
        ensures unfailed { ¬ (IsErrOf result LogError.Device) → V.faults volume.new ≡ V.faults volume.old }
        ensures stays { Stays (V.tells volume.old) (V.tells volume.new) (V.leases volume.old) (V.leases volume.new)
            (V.refs volume.old) (V.refs volume.new) (V.faults volume.old) (V.faults volume.new) }

        // What a crash may leave.
        ensures kept { IsTrue (V.tells volume.old) → V.may_leave volume.old (V.moment volume.old) (V.files volume.old)
            → V.may_leave volume.new (V.moment volume.new) (V.files volume.new) }
        ensures leaves { IsTrue (V.tells volume.old) → Passes (V.moment volume.old) (V.moment volume.new)
            (V.may_leave volume.old) (V.may_leave volume.new) (Seals self.now
            (bytes_of (V.files volume.old) (body_file self.now)) (bytes_of (V.files volume.old) (ends_file self.now))) }
        ensures body_first { IsTrue (V.tells volume.old) → BodyFirst self.now (V.files volume.old)
            (V.may_leave volume.new (V.moment volume.new)) }
    {
        let body = body_file(self.file);
        let ends = ends_file(self.file);
        let numbers = mark_numbers(self.end, self.back);
        volume.sync(body)?;
        volume.write_at(ends, place, &numbers)?;
        append_synced(volume, ends, &[0; 13])?;
        write_synced(volume, ends, place + 12, &[1])?;
        Ok(())
    }

    /// Seals, makes the next pair, and gives the log on it. Where `has_next` says whether the next log file is there, it
    /// says so after the call too.
    fn make_next<V: Volume>(&mut self, volume: &mut V, has_next: &mut bool) -> Result<Log, LogError>
        requires stands { IsTrue (V.tells volume.old) → Stands self.old (V.files volume.old)
            (V.may_leave volume.old (V.moment volume.old)) }
        ensures next { IfOk result (λ next. next ≡ rolled_log self.old) }
        ensures log { OnOk result (self.new ≡ sealed_log self.old) }
        ensures refused { OnErr result ((self.new ≡ self.old) ⊎ (self.new ≡ sealed_log self.old)) }
        ensures stands_on { IsTrue (V.tells volume.old) → ¬ (IsErrOf result LogError.Device)
            → Stands self.new (V.files volume.new) (V.may_leave volume.new (V.moment volume.new)) }
        ensures next_stands { IsTrue (V.tells volume.old) → IfOk result (λ next.
            Stands next (V.files volume.new) (V.may_leave volume.new (V.moment volume.new))) }
        ensures rolled { IsTrue (V.tells volume.old) → OnOk result (
            IsRolled self.old [] (V.files volume.old) (V.files volume.new)) }
        ensures next_known { IsTrue (V.tells volume.old)
            → has_next.old ≡ has_pair (V.files volume.old) (self.old.file + 1)
            → has_next.new ≡ has_pair (V.files volume.new) (self.old.file + 1) }
        ensures made { OnOk result (has_next.new ≡ true) }
        ensures never_lost { has_next.old ≡ true → has_next.new ≡ true }
        ensures spent_leaves_it { (last : ℕ) → IsErrOf result (LogError.NumbersSpent last)
            → has_next.new ≡ has_next.old }
        ensures others { IsTrue (V.tells volume.old) → (other : ℕ) → IsElsewhere self.old other
            → get (V.files volume.new) other ≡ get (V.files volume.old) other }
        ensures reads { IsTrue (V.tells volume.old) → Rolls self.old (bytes_of (V.files volume.old) (body_file self.old))
            (bytes_of (V.files volume.old) (ends_file self.old)) (V.files volume.old) (V.files volume.new) }
        ensures spent { (self.old.file ≡ last_file) ↔ (result ≡ Err (LogError.NumbersSpent last_file)) }
        ensures spent_only { (last : ℕ) → IsErrOf result (LogError.NumbersSpent last) → last ≡ last_file }
        ensures untouched { (last : ℕ) → IsErrOf result (LogError.NumbersSpent last)
            → (self.new ≡ self.old) × (volume.new ≡ volume.old) }
        ensures failed { IsErrOf result LogError.Device → Rose (V.faults volume.old) (V.faults volume.new) }
        ensures unfailed { ¬ (IsErrOf result LogError.Device) → V.faults volume.new ≡ V.faults volume.old }
        ensures stays { Stays (V.tells volume.old) (V.tells volume.new) (V.leases volume.old) (V.leases volume.new)
            (V.refs volume.old) (V.refs volume.new) (V.faults volume.old) (V.faults volume.new) }

        // What a crash may leave.
        ensures kept { IsTrue (V.tells volume.old) → V.may_leave volume.old (V.moment volume.old) (V.files volume.old)
            → V.may_leave volume.new (V.moment volume.new) (V.files volume.new) }
        ensures leaves { IsTrue (V.tells volume.old) → Passes (V.moment volume.old) (V.moment volume.new)
            (V.may_leave volume.old) (V.may_leave volume.new) (Rolls self.old
            (bytes_of (V.files volume.old) (body_file self.old)) (bytes_of (V.files volume.old) (ends_file self.old))) }
        ensures body_first { IsTrue (V.tells volume.old) → BodyFirst self.old (V.files volume.old)
            (V.may_leave volume.new (V.moment volume.new)) }
        ensures settled { IsTrue (V.tells volume.old) → ¬ (IsErrOf result LogError.Device)
            → (other : ℕ) → other ≢ ends_file self.old
            → IsSettled other (V.files volume.old) (V.may_leave volume.old (V.moment volume.old))
            → IsSettled other (V.files volume.new) (V.may_leave volume.new (V.moment volume.new)) }
    {
        let Some(file) = self.file.checked_add(1) else {
            return Err(LogError::NumbersSpent {
                last: u64::from(self.file),
            });
        };
        self.seal(volume)?;
        make_pair(volume, file, has_next)?;
        Ok(Log::empty(file, self.target))
    }
}
