//! What goes wrong, and at which call.

use xod_base::Cause;

/// What goes wrong at a call. What the traits do not let a call answer is passed over.
#[derive(Clone, Copy, Debug, PartialEq, Eq)]
pub enum Trouble {
    /// The call is refused for a cause.
    Refused(Cause),
    /// A write fails: the call is refused for `Device`, and the space is broken from there.
    Breaks,
    /// A flush commits, and its transaction can't go on there, for `Device` or `Memory`.
    Faulted(Cause),
}

/// A call by its number, from 0, and what goes wrong there.
#[derive(Clone, Copy, Debug, PartialEq, Eq)]
pub struct Planned {
    pub call: u32,
    pub trouble: Trouble,
}

/// What is planned, and how many calls there were.
#[derive(Clone, Copy)]
pub struct Plan {
    planned: Option<Planned>,
    calls: u32,
}

impl Plan {
    /// A plan before its first call.
    pub fn new(planned: Option<Planned>) -> Plan {
        Plan { planned, calls: 0 }
    }

    /// Counts a call, and answers what goes wrong there.
    pub fn next(&mut self) -> Option<Trouble> {
        let call = self.calls;
        self.calls = call.saturating_add(1);
        match self.planned {
            Some(planned) if planned.call == call => Some(planned.trouble),
            _ => None,
        }
    }
}
