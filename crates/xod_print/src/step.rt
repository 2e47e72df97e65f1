//! The lines of shared steps and of stops, printed into room that was made before.
//!
//! Nothing here takes memory: a session makes the room before it takes a step.
ghost use Rattle.std.specs.Prelude.{◌≡◌, ◌+◌, ◌≤◌, ◌++◌, ◌∷◌, [], IsTrue, codes, decimal, length, vec_len, vec_capacity};
ghost use Rattle.xod_print.specs.Rooms.{HasRoomFor, PrintsWithin};
ghost use Rattle.xod_base.specs.declared.answer.Reply.TheVariants as reply;
ghost use Rattle.xod_base.specs.declared.answer.FlushAnswer.TheVariants.{Conflict};
ghost use Rattle.xod_print.specs.Texts.{answer_line, cause_text, flush_text, is_step_reply, reply_text};

use xod_base::{Cause, FlushAnswer, Reply};

/// The most bytes of the line of a shared step.
pub const STEP_ROOM: usize = 82;

/// The most bytes of the line of a stop.
pub const STOP_ROOM: usize = 35;

/// Puts a number's digits at the end.
fn push_number(out: &mut Vec<u8>, number: u64)
    requires { vec_len out.old + length (decimal number) ≤ vec_capacity out.old }
    ensures printed { out.new.items ≡ out.old.items ++ decimal number }
    ensures length { vec_len out.new ≡ vec_len out.old + length (decimal number) }
    ensures room { vec_capacity out.new ≡ vec_capacity out.old }
{
    if number >= 10 {
        push_number(out, number / 10);
        out.push_reserved(b'0' + (number % 10) as u8);
    } else {
        out.push_reserved(b'0' + number as u8);
    }
}

/// Puts a number at the end.
fn push_decimal(out: &mut Vec<u8>, number: u64)
    requires { HasRoomFor 20 out.old }
    ensures { PrintsWithin 20 (decimal number) out.old out.new }
{
    push_number(out, number);
}

/// Puts a word at the end.
fn push_word(out: &mut Vec<u8>, word: &[u8])
    requires { HasRoomFor (length word.now) out.old }
    ensures { PrintsWithin (length word.now) word.now out.old out.new }
{
    let Ok(()) = out.extend_from_slice(word) else {
        unreachable!()
    };
}

fn push_cause(out: &mut Vec<u8>, cause: Cause)
    requires { HasRoomFor 7 out.old }
    ensures { PrintsWithin 7 (cause_text cause) out.old out.new }
{
    match cause {
        Cause::Device => push_word(out, b"device"),
        Cause::Broken => push_word(out, b"broken"),
        Cause::Damaged => push_word(out, b"damaged"),
        Cause::Spent => push_word(out, b"spent"),
        Cause::Memory => push_word(out, b"memory"),
    }
}

/// Puts a word and a number at the end.
fn push_numbered(out: &mut Vec<u8>, word: &[u8], number: u64)
    requires { HasRoomFor (length word.now + 20) out.old }
    ensures { PrintsWithin (length word.now + 20) (word.now ++ decimal number) out.old out.new }
{
    push_word(out, word);
    push_decimal(out, number);
}

fn push_conflict(out: &mut Vec<u8>, base: u64, now: u64)
    requires { HasRoomFor 59 out.old }
    ensures { PrintsWithin 59 (flush_text (Conflict base now)) out.old out.new }
{
    push_numbered(out, b"conflict base ", base);
    push_numbered(out, b" now ", now);
}

fn push_flush(out: &mut Vec<u8>, answer: FlushAnswer)
    requires { HasRoomFor 59 out.old }
    ensures { PrintsWithin 59 (flush_text answer) out.old out.new }
{
    match answer {
        FlushAnswer::Nothing => push_word(out, b"nothing"),
        FlushAnswer::Committed { version, .. } => push_numbered(out, b"committed ", version),
        FlushAnswer::Conflict { base, now } => push_conflict(out, base, now),
    }
}

fn push_stop(out: &mut Vec<u8>, cause: Cause)
    requires { HasRoomFor 12 out.old }
    ensures { PrintsWithin 12 (reply_text (reply.Stop cause)) out.old out.new }
{
    push_word(out, b"stop ");
    push_cause(out, cause);
}

fn push_step(out: &mut Vec<u8>, reply: &Reply)
    requires step { IsTrue (is_step_reply reply.now) }
    requires room { HasRoomFor 59 out.old }
    ensures { PrintsWithin 59 (reply_text reply.now) out.old out.new }
{
    match reply {
        Reply::At { commit } => push_numbered(out, b"at ", *commit),
        Reply::Flushed(answer) => push_flush(out, *answer),
        Reply::Ended => push_word(out, b"ended"),
        Reply::Synced => push_word(out, b"synced"),
        Reply::Stop { cause } => push_stop(out, *cause),
        _ => unreachable!(),
    }
}

/// Puts the line of a shared step's answer at the end.
pub fn print_step(out: &mut Vec<u8>, line: u32, reply: &Reply)
    requires step { IsTrue (is_step_reply reply.now) }
    requires room { HasRoomFor STEP_ROOM out.old }
    ensures { PrintsWithin STEP_ROOM (answer_line line reply.now) out.old out.new }
{
    push_decimal(out, u64::from(line));
    push_word(out, b": ");
    push_step(out, reply);
    push_word(out, b"\n");
}

/// Puts the line of a stop at the end.
pub fn print_stop(out: &mut Vec<u8>, line: u32, cause: Cause)
    requires { HasRoomFor STOP_ROOM out.old }
    ensures { PrintsWithin STOP_ROOM (answer_line line (reply.Stop cause)) out.old out.new }
{
    push_decimal(out, u64::from(line));
    push_word(out, b": ");
    push_stop(out, cause);
    push_word(out, b"\n");
}
