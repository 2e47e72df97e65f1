//! The lines of an input in their order, and the script that they are.
//!
//! It cuts the input at its line feeds and hands line after line to a `Reading`. The rules stand in `specs/Lines.antt`
//! and `specs/Scripts.antt`.
ghost use Rattle.std.specs.Prelude.{◌≡◌, ◌==◌, ◌∷◌, ◌<◌, ◌≤◌, IfOk, IsTrue, length, option_and_then};
ghost use Rattle.std.specs.List.{position_or_len};
ghost use Rattle.xod_lang.specs.Lines.{lines_of, without_return};
ghost use Rattle.xod_lang.specs.Reads.{GoesOnAt, ReadsScript};
ghost use Rattle.xod_lang.specs.Scripts.{line_of, script_of, with_line};
ghost use Rattle.xod_lang.specs.WellFormed.{is_well_formed};

use crate::pool::Pool;
use crate::reading::Reading;
use crate::script::{Script, ScriptError};
use std::alloc::Global;
use xod_base::INPUT_LIMIT;
use xod_words::Unread;

/// How many bytes stand before the first line feed.
fn line_len(bytes: &[u8]) -> usize
    ensures exact { result ≡ position_or_len (λ byte. byte == 10) bytes.now }
    ensures within { result ≤ length bytes.now }
{
    bytes.iter().take_while(|byte| **byte != b'\n').count()
}

/// The line without the one carriage return at its end, where it has one.
fn without_return(line: &[u8]) -> &[u8]
    ensures { result.now ≡ without_return line.now }
{
    match line.split_last() {
        Some((b'\r', front)) => front,
        _ => line,
    }
}

/// The next line without its end, and the bytes behind it.
fn next_line(bytes: &[u8]) -> (&[u8], &[u8])
    requires { 0 < length bytes.now }
    ensures cut { lines_of bytes.now ≡ result.0.now ∷ lines_of result.1.now }
    ensures shorter { length result.1.now < length bytes.now }
{
    let (line, rest) = bytes.split_at(line_len(bytes));
    match rest.split_first() {
        None => (line, rest),
        Some((_, more)) => (without_return(line), more),
    }
}

/// Takes one line more, which is the first bad one where it is bad.
fn add_line(
    alloc: Global,
    reading: &mut Reading,
    pool: &mut Pool,
    line: u32,
    bytes: &[u8],
) -> Result<(), ScriptError>
    ensures { GoesOnAt line result reading.new
        (option_and_then (with_line reading.old line) (line_of bytes.now)) }
{
    match reading.add_bytes(alloc, pool, line, bytes) {
        Ok(()) => Ok(()),
        Err(Unread::Bad) => Err(ScriptError::Line { line }),
        Err(Unread::Memory) => Err(ScriptError::Memory),
    }
}

/// The script of an input, line by line.
fn read_lines(alloc: Global, bytes: &[u8]) -> Result<Script, ScriptError>
    requires { length bytes.now ≤ INPUT_LIMIT }
    ensures { ReadsScript result (script_of bytes.now) }
{
    let mut pool = Pool::new(alloc)?;
    let mut reading = Reading::new(alloc);
    let mut rest = bytes;
    let mut line = 1;
    while !rest.is_empty() {
        let (front, more) = next_line(rest);
        if let Err(error) = add_line(alloc, &mut reading, &mut pool, line, front) {
            return Err(error);
        }
        rest = more;
        line += 1;
    }
    reading.finish(line)
}

/// The script that an input is, which is well formed, or its first bad line. Where memory is refused, nothing is said of
/// the input. The rule stands in `specs/Scripts.antt`.
pub fn read_script(alloc: Global, bytes: &[u8]) -> Result<Script, ScriptError>
    requires { length bytes.now ≤ INPUT_LIMIT }
    ensures exactly { ReadsScript result (script_of bytes.now) }
    ensures well_formed { IfOk result (λ script. IsTrue (is_well_formed script)) }
{
    read_lines(alloc, bytes)
}
