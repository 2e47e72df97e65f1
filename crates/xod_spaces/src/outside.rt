//! How often the device failed, and whether anything works any more.
//!
//! It is handed what was planned for a call, and answers what the traits let the call answer. Why a call is refused
//! stands in `specs/Outsides.antt`.
ghost use Rattle.std.specs.Prelude.{◌≡◌, ◌+◌, IfSome, None, false};

use crate::plan::Trouble;
use xod_base::Cause;

/// How often the device failed, whether a write failed, and whether a last number stands.
#[derive(Clone, Copy)]
pub struct Outside {
    pub(crate) faults: u64,
    pub(crate) is_broken: bool,
    pub(crate) is_last: bool,
}

impl Outside {
    ghost use Rattle.xod_journal.specs.Spaces.{IsCounted};
    ghost use Rattle.xod_spaces.specs.Outsides.{IsFaultIn, IsReasonIn, StaysOut};

    /// Nothing has failed.
    pub fn new() -> Outside
        ensures { result.faults ≡ 0 }
    {
        Outside {
            faults: 0,
            is_broken: false,
            is_last: false,
        }
    }

    /// The device failed so many times more.
    pub fn count(&mut self, faults: u64)
        ensures stays { StaysOut self.old self.new }
        ensures counted { IsCounted (self.old.faults + faults) self.new.faults }
    {
        self.faults = self.faults.saturating_add(faults);
    }

    /// Why a call is refused. A flush alone can find that a number is spent.
    pub fn refusal(&mut self, trouble: Option<Trouble>, flushes: bool) -> Option<Cause>
        ensures stays { StaysOut self.old self.new }
        ensures unbroken { result ≡ None → self.old.is_broken ≡ false }
        ensures reason { IfSome result (IsReasonIn self.old self.new flushes) }
    {
        if self.is_broken {
            return Some(Cause::Broken);
        }
        match trouble {
            Some(Trouble::Refused(Cause::Memory)) => Some(Cause::Memory),
            Some(Trouble::Refused(Cause::Damaged)) => Some(Cause::Damaged),
            Some(Trouble::Refused(Cause::Device)) => {
                self.faults = self.faults.saturating_add(1);
                Some(Cause::Device)
            }
            Some(Trouble::Refused(Cause::Spent)) if flushes => {
                self.is_last = true;
                Some(Cause::Spent)
            }
            Some(Trouble::Breaks) => {
                self.faults = self.faults.saturating_add(1);
                self.is_broken = true;
                Some(Cause::Device)
            }
            _ => None,
        }
    }

    /// Why a transaction can't go on at its commit.
    pub fn fault(&mut self, trouble: Option<Trouble>) -> Option<Cause>
        ensures stays { StaysOut self.old self.new }
        ensures reason { IfSome result (IsFaultIn self.old self.new) }
    {
        match trouble {
            Some(Trouble::Faulted(Cause::Memory)) => Some(Cause::Memory),
            Some(Trouble::Faulted(Cause::Device)) => {
                self.faults = self.faults.saturating_add(1);
                Some(Cause::Device)
            }
            _ => None,
        }
    }
}
