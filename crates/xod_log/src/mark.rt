//! Where a mark lies in the ends, and its first twelve bytes.
ghost use Rattle.std.specs.Prelude.{◌≡◌, ◌<◌, ◌≤◌, ◌+◌, ◌*◌, ◌^◌, MatchOption};
ghost use Rattle.xod_log.specs.Ends.{numbers};

use xod_block::{EndMark, encode_mark};

/// The place of a mark, where it and one more mark end below 2^64.
pub fn mark_place(mark: u64) -> Option<u64>
    ensures { MatchOption result (2 ^ 64 ≤ 13 * (mark + 2)) (λ place. (place ≡ 13 * mark) × (13 * (mark + 2) < 2 ^ 64)) }
{
    let behind = mark.checked_add(2)?.checked_mul(13)?;
    Some(behind - 26)
}

/// The bytes of a mark before its gate.
pub fn mark_numbers(end: u64, back: u32) -> [u8; 12]
    ensures { result ≡ numbers end back }
{
    let [b0, b1, b2, b3, b4, b5, b6, b7, b8, b9, b10, b11, _] = encode_mark(EndMark {
        end,
        back,
        gate: 0,
    });
    [b0, b1, b2, b3, b4, b5, b6, b7, b8, b9, b10, b11]
}
