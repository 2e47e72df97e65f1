//! Where a session stands between two statements, and which statements are allowed there.
//!
//! The rule stands in `specs/Standings.antt`.
ghost use Rattle.std.specs.Prelude.{◌≡◌};
ghost use Rattle.xod_lang.specs.Standings.{goes_to, is_in_block, is_open, is_outside, stands_after};

use crate::script::Form;

/// Where a session stands between two statements.
#[derive(Clone, Copy, Debug, PartialEq, Eq)]
pub enum Standing {
    /// No transaction is open.
    Outside,
    /// Behind a `begin`.
    InTransaction,
    /// In a `do` block.
    InBlock,
}

/// The standing, where it is allowed.
fn goes_to(next: Standing, allowed: bool) -> Option<Standing>
    ensures { result ≡ goes_to next allowed }
{
    if allowed { Some(next) } else { None }
}

impl Standing {
    /// Whether no transaction and no block is open.
    pub fn is_outside(self) -> bool
        ensures { result ≡ is_outside self }
    {
        matches!(self, Standing::Outside)
    }

    /// Whether a transaction is open that is no block's.
    pub fn is_open(self) -> bool
        ensures { result ≡ is_open self }
    {
        matches!(self, Standing::InTransaction)
    }

    /// Whether a block is open.
    pub fn is_in_block(self) -> bool
        ensures { result ≡ is_in_block self }
    {
        matches!(self, Standing::InBlock)
    }

    /// Where a session stands after a statement, and `None` where the statement is not allowed.
    #[tactic(auto, unfolding(crate::specs::Standings::stands_after))]
    pub fn after(self, form: &Form) -> Option<Standing>
        ensures { result ≡ stands_after self form.now }
    {
        match form {
            Form::Begin { .. } => goes_to(Standing::InTransaction, self.is_outside()),
            Form::Do { .. } => goes_to(Standing::InBlock, self.is_outside()),
            Form::Done => goes_to(Standing::Outside, self.is_in_block()),
            Form::Flush | Form::Revert => goes_to(Standing::InTransaction, self.is_open()),
            Form::End | Form::Commit => goes_to(Standing::Outside, self.is_open()),
            Form::Sync => goes_to(self, !self.is_in_block()),
            _ => goes_to(self, !self.is_outside()),
        }
    }
}
