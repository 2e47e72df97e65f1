//! The top call of the commands that start no thread.
ghost use Rattle.std.specs.Prelude.{◌≡◌, ◌≤◌, ◌⊎◌, length, map, string_bytes, None, is_some, false, IsTrue};
ghost use Rattle.xod_base.specs.Causes.{Rose};
ghost use Rattle.xod_base.specs.declared.limits.TheConstants.{INPUT_LIMIT as LIMIT};
ghost use Rattle.xod_io.specs.Outside.{TellsAsBefore};
ghost use Rattle.xod_lang.specs.Scripts.{script_of};
ghost use Rattle.xod_shell.specs.Commands.{target_asked as asked_by};
ghost use Rattle.xod_shell.specs.Endings.{Answers, Ends, GoesThrough, IsBlamed, IsDue, IsReadOnly, given_to, is_before_opening, taken_from};
ghost use Rattle.xod_shell.specs.Runs.{disk_of};

use crate::command::target_asked;
use crate::ending::Ending;
use crate::run::run;
use crate::telling::tell;
use std::alloc::Global;
use xod_base::{INPUT_LIMIT, Memory};
use xod_io::{Sink, Source, TakeError, read_all};
use xod_lang::{ScriptError, read_script};
use xod_volume::Volume;

/// The status of a run, and the volume that was handed in.
pub struct Outcome<V> {
    pub status: u8,
    pub volume: V,
}

/// Reads bytes as a script, and plays it over the store in a volume.
fn answer<V: Volume>(alloc: Global, bytes: &[u8], volume: V, target: u64) -> (Ending, V)
    requires short { length bytes.now ≤ LIMIT }
    requires some { 4096 ≤ target }
    requires low { target ≤ 8388608 }
    ensures answers { Answers (disk_of V.tells V.files V.faults V.moment V.may_leave volume result.1)
        (result.1 ≡ volume) (script_of bytes.now) result.0 }
    ensures untouched { IsTrue (is_before_opening result.0) → result.1 ≡ volume }
{
    match read_script(alloc, bytes) {
        Ok(script) => run(alloc, script, volume, target),
        Err(ScriptError::Line { line }) => match Ending::bad_line(alloc, line) {
            Ok(ending) => (ending, volume),
            Err(Memory) => (Ending::NoMemory, volume),
        },
        Err(ScriptError::Memory) => (Ending::NoMemory, volume),
    }
}

/// The ending of a run: the words first, then the source, then what it gave.
fn ending_of<S: Source, V: Volume>(
    alloc: Global,
    words: &[String],
    input: &mut S,
    volume: V,
) -> (Ending, V)
    ensures due { IsDue (disk_of V.tells V.files V.faults V.moment V.may_leave volume result.1)
        (result.1 ≡ volume) (asked_by (map (λ word. string_bytes word) words.now))
        (taken_from S.left S.faults input.old input.new) result.0 }
    ensures untouched { IsTrue (is_before_opening result.0) → result.1 ≡ volume }
    ensures blamed { IsBlamed (taken_from S.left S.faults input.old input.new) result.0 }
    ensures nothing_read_without_a_command { IsReadOnly
        (asked_by (map (λ word. string_bytes word) words.now))
        (taken_from S.left S.faults input.old input.new) }
    ensures faults_never_fall { S.faults input.old ≤ S.faults input.new }
    ensures tells_as_before { TellsAsBefore (S.left input.old) (S.left input.new) }
    ensures same_references { S.refs input.new ≡ S.refs input.old }
{
    let Some(target) = target_asked(words) else {
        return (Ending::Usage, volume);
    };
    match read_all(alloc, input, INPUT_LIMIT) {
        Ok(bytes) => answer(alloc, bytes.as_slice(), volume, target),
        Err(TakeError::Failed) => (Ending::SourceFailed, volume),
        Err(TakeError::TooLong) => (Ending::TooLong, volume),
        Err(TakeError::Memory) => (Ending::NoMemory, volume),
    }
}

/// Serves the commands that start no thread, over the store in a volume, which is handed back.
///
/// How a run ends, with which status and text and for which cause, stands in `specs/Endings.antt`, and what becomes of the
/// store in `specs/Runs.antt`; what a transcript is stands in `xod_session`, in `specs/Transcripts.antt`, and how an order
/// is played in `xod_play`, in `specs/Orders.antt`.
pub fn xod_quiet<S: Source, K: Sink, V: Volume>(
    alloc: Global,
    words: &[String],
    input: &mut S,
    out: &mut K,
    volume: V,
) -> Outcome<V>
    // There is an ending that is due, and it was told; a sink that fails takes the place of any status. What becomes of the
    // store is part of the ending.
    ensures ends { Ends
        (disk_of V.tells V.files V.faults V.moment V.may_leave volume result.volume)
        (result.volume ≡ volume) (asked_by (map (λ word. string_bytes word) words.now))
        (taken_from S.left S.faults input.old input.new)
        (given_to K.written K.faults out.old out.new) result.status }

    // Where nothing fails and the order can be taken to its end, the transcript is printed; want of memory shows in the
    // status alone.
    ensures complete { GoesThrough
        (disk_of V.tells V.files V.faults V.moment V.may_leave volume result.volume)
        (asked_by (map (λ word. string_bytes word) words.now))
        (taken_from S.left S.faults input.old input.new)
        (given_to K.written K.faults out.old out.new)
        → (result.status ≡ 0) ⊎ (result.status ≡ 5) }

    // Each status for itself.
    ensures usage_only_by_the_words { result.status ≡ 2
        → asked_by (map (λ word. string_bytes word) words.now) ≡ None }
    ensures by_the_words_only_usage { asked_by (map (λ word. string_bytes word) words.now) ≡ None
        → (result.status ≡ 2) ⊎ (result.status ≡ 7) }
    ensures source_failed_only_after_a_fault { result.status ≡ 6
        → Rose (S.faults input.old) (S.faults input.new) }
    ensures sink_failed_only_after_a_fault { result.status ≡ 7
        → Rose (K.faults out.old) (K.faults out.new) }
    ensures device_failed_only_after_a_fault { result.status ≡ 4
        → Rose (V.faults volume) (V.faults result.volume) }
    ensures untouched { (result.status ≡ 2) ⊎ (result.status ≡ 3) ⊎ (result.status ≡ 6)
        → result.volume ≡ volume }

    // What a run leaves of the source and the sink.
    ensures nothing_read_without_a_command { IsReadOnly
        (asked_by (map (λ word. string_bytes word) words.now))
        (taken_from S.left S.faults input.old input.new) }
    ensures source_faults_never_fall { S.faults input.old ≤ S.faults input.new }
    ensures sink_faults_never_fall { K.faults out.old ≤ K.faults out.new }
    ensures source_tells_as_before { TellsAsBefore (S.left input.old) (S.left input.new) }
    ensures sink_tells_as_before { TellsAsBefore (K.written out.old) (K.written out.new) }
    ensures same_source { S.refs input.new ≡ S.refs input.old }
    ensures same_sink { K.refs out.new ≡ K.refs out.old }
{
    let (ending, volume) = ending_of(alloc, words, input, volume);
    let status = tell(out, &ending);
    Outcome { status, volume }
}
