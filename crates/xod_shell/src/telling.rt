//! How an ending is told.
ghost use Rattle.std.specs.Prelude.{◌≡◌, ◌≤◌};
ghost use Rattle.xod_io.specs.Outside.{TellsAsBefore};
ghost use Rattle.xod_shell.specs.Endings.{IsTold, given_to};

use crate::ending::Ending;
use xod_base::Failed;
use xod_io::{Sink, write_all};

/// Writes the text of an ending, and answers its status, or 7 where the sink failed.
pub fn tell<K: Sink>(out: &mut K, ending: &Ending) -> u8
    ensures told { IsTold ending.now result (given_to K.written K.faults out.old out.new) }
    ensures faults_never_fall { K.faults out.old ≤ K.faults out.new }
    ensures tells_as_before { TellsAsBefore (K.written out.old) (K.written out.new) }
    ensures same_references { K.refs out.new ≡ K.refs out.old }
{
    match write_all(out, ending.text()) {
        Ok(()) => ending.status(),
        Err(Failed) => 7,
    }
}
