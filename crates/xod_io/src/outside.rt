//! What a source and a sink promise, whatever lies behind them.
//!
//! Code that reads or writes is written over these two traits, so that it is proved for memory and for the standard
//! streams at once. A contract speaks of the bytes only where the object tells them.
ghost use Rattle.std.specs.Prelude.{◌≡◌, ℕ, List, Option, OnOk};
ghost use Rattle.std.specs.Io.{ReadsAtMost};
ghost use Rattle.std.specs.Io.KnownBytes.{ReadConsumes};
ghost use Rattle.xod_base.specs.Causes.{HasCause};
ghost use Rattle.xod_io.specs.Outside.{TellsAsBefore, Writes};
ghost use base.Fml.{GName};

use xod_base::Failed;

/// Something that bytes are read from.
pub trait Source {
    // The bytes that reads will give from here on, where it tells them.
    ghost left: { Self → Option (List ℕ) };

    // How many calls failed.
    ghost faults: { Self → ℕ };

    // The references that it holds.
    ghost refs: { Self → List GName };

    /// Reads some of what is left into `out`, and answers how many bytes it put there. It answers 0 for an `out` that is
    /// not empty only at the end. The bytes of `out` past that number mean nothing, nor does `out` after `Failed`.
    fn read(&mut self, out: &mut [u8]) -> Result<usize, Failed>
        ensures within { ReadsAtMost result out.new }
        ensures bytes { ReadConsumes (left self.old) (left self.new) result out.new }
        ensures cause { HasCause (faults self.old) (faults self.new) result }
        ensures no_fault_at_ok { OnOk result (faults self.new ≡ faults self.old) }
        ensures tells_as_before { TellsAsBefore (left self.old) (left self.new) }
        ensures same_references { refs self.new ≡ refs self.old };
}

/// Something that bytes are written to.
pub trait Sink {
    // The bytes that it was given so far, where it tells them.
    ghost written: { Self → Option (List ℕ) };

    // How many calls failed.
    ghost faults: { Self → ℕ };

    // The references that it holds.
    ghost refs: { Self → List GName };

    /// Takes the first of these bytes, and answers how many it took.
    fn write(&mut self, bytes: &[u8]) -> Result<usize, Failed>
        ensures bytes { Writes bytes.now (written self.old) (written self.new) result }
        ensures cause { HasCause (faults self.old) (faults self.new) result }
        ensures no_fault_at_ok { OnOk result (faults self.new ≡ faults self.old) }
        ensures tells_as_before { TellsAsBefore (written self.old) (written self.new) }
        ensures same_references { refs self.new ≡ refs self.old };
}
