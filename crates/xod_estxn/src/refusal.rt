//! Reads that gave no answer, as refusals of a statement.
ghost use Rattle.std.specs.Prelude.{◌≡◌};
ghost use Rattle.xod_estxn.specs.Refusals.{refusal_of};

use xod_base::{ReadError, StmtError};

/// Why a statement is refused where a read gave no answer.
pub(crate) fn refusal(error: ReadError) -> StmtError
    ensures { result ≡ refusal_of error }
{
    match error {
        ReadError::Device => StmtError::Device,
        ReadError::Damaged(place) => StmtError::Damaged(place),
        ReadError::Memory => StmtError::Memory,
    }
}
