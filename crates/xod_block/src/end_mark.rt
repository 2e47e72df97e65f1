//! End marks: up to where a body is whole.
//!
//! The file of ends is a list of these. Which marks are open, and when a gate is written, is the log's business.
ghost use Rattle.std.specs.Prelude.{◌≡◌, length};
ghost use Rattle.xod_block.specs.Marks.{mark_bytes, mark_of};

use crate::number::{first_u32, first_u64, u32_bytes, u64_bytes};

/// A mark: the body is whole up to `end`, a root begins `back` bytes before that, and a `gate` other than 0 says so.
#[derive(Clone, Copy, Debug, PartialEq, Eq)]
pub struct EndMark {
    pub end: u64,
    pub back: u32,
    pub gate: u8,
}

/// The bytes of a mark.
pub fn encode_mark(mark: EndMark) -> [u8; 13]
    ensures { result ≡ mark_bytes mark }
{
    let end = u64_bytes(mark.end);
    let back = u32_bytes(mark.back);
    [
        end[0], end[1], end[2], end[3], end[4], end[5], end[6], end[7], back[0], back[1], back[2],
        back[3], mark.gate,
    ]
}

/// The mark in 13 bytes.
fn mark_in(bytes: &[u8]) -> EndMark
    requires { length bytes.now ≡ 13 }
    ensures exactly { result ≡ mark_of bytes.now }
    ensures spelled_so { mark_bytes result ≡ bytes.now }
{
    let (_, behind_end) = bytes.split_at(8);
    EndMark {
        end: first_u64(bytes),
        back: first_u32(behind_end),
        gate: bytes[12],
    }
}

/// The mark that bytes spell. Every list of 13 bytes spells one.
pub fn decode_mark(bytes: [u8; 13]) -> EndMark
    ensures exactly { result ≡ mark_of bytes }
    ensures spelled_so { mark_bytes result ≡ bytes }
{
    mark_in(&bytes)
}
