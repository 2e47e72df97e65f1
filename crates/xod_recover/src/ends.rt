//! The ends of a log file in memory: how many marks are open, and what a mark says.
ghost use Rattle.std.specs.Prelude.{◌≡◌, ◌<◌, ◌≤◌, ◌+◌, ◌*◌, ◌^◌, length, nat_lt, pred};
ghost use Rattle.xod_log.specs.Ends.{back_at, end_at, numbers, numbers_at};
ghost use Rattle.xod_recover.specs.Opened.{open_count, opens};

use xod_base::Bytes;
use xod_block::{EndMark, decode_mark};

/// A log file that is used: its number, and the bytes of its ends, of which a mark is open.
#[derive(Debug, Drop)]
pub struct Used {
    pub file: u32,
    pub ends: Bytes,
    ghost opened: { 0 < open_count ends },
}

/// Whether a mark is open, where those before it are.
fn opens(ends: &[u8], mark: usize) -> bool
    requires { mark ≤ length ends.now }
    ensures { result ≡ opens ends.now mark }
{
    ends.len() / 13 >= mark + 2 && ends[13 * mark + 12] != 0
}

/// How many marks are open.
pub fn open_count(ends: &[u8]) -> usize
    ensures count { result ≡ open_count ends.now }
    ensures followed { 0 < result → 13 * (result + 1) ≤ length ends.now }
{
    let mut mark = 0;
    while opens(ends, mark) {
        mark += 1;
    }
    mark
}

/// Whether a mark is open.
pub fn has_open_mark(ends: &[u8]) -> bool
    ensures { result ≡ nat_lt 0 (open_count ends.now) }
{
    open_count(ends) > 0
}

/// The mark at a place, counted from 0.
pub fn mark_at(ends: &[u8], mark: usize) -> EndMark
    requires { 13 * (mark + 1) ≤ length ends.now }
    ensures end { result.end ≡ end_at ends.now mark }
    ensures back { result.back ≡ back_at ends.now mark }
    ensures spelled { numbers_at ends.now mark ≡ numbers result.end result.back }
{
    let (_, here) = ends.split_at(13 * mark);
    let (bytes, _) = here.split_at(13);
    let mut mark = [0; 13];
    mark.copy_from_slice(bytes);
    decode_mark(mark)
}

/// The last open mark of a log file, counted from 0, and what it says.
#[derive(Clone, Copy, Debug)]
pub struct Marked {
    pub file: u32,
    pub mark: u64,
    pub end: u64,
    pub back: u32,
}

/// The last open mark of a log file that is used.
pub fn last_mark(used: &Used) -> Marked
    ensures file { result.file ≡ used.now.file }
    ensures mark { result.mark ≡ pred (open_count used.now.ends) }
    ensures end { result.end ≡ end_at used.now.ends (pred (open_count used.now.ends)) }
    ensures back { result.back ≡ back_at used.now.ends (pred (open_count used.now.ends)) }
    ensures spelled { numbers_at used.now.ends (pred (open_count used.now.ends))
        ≡ numbers result.end result.back }
    ensures room { 13 * (result.mark + 2) < 2 ^ 64 }
{
    let ends = used.ends.as_slice();
    let mark = open_count(ends) - 1;
    let last = mark_at(ends, mark);
    Marked {
        file: used.file,
        mark: mark as u64,
        end: last.end,
        back: last.back,
    }
}
