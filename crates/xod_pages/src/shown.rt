//! What the first bytes of a place show of the record there.
//!
//! Bytes alone: no lease and no memory. That a front decides the record is a fact of the format, since each part of a
//! record says its length before it comes.
ghost use Rattle.std.specs.Prelude.{◌≤◌, length};
ghost use Rattle.xod_pages.specs.Shows.{Shows};

use xod_block::decode_record;

/// How many bytes the longest record has: a node with a key and a value of 65,535 bytes each, and 256 children of 13.
pub const LONGEST_RECORD: usize = 134_406;

/// What the first bytes of a place show.
#[derive(Clone, Copy, Debug)]
pub(crate) enum Shown {
    /// A record, and how many bytes it has.
    Whole(usize),
    /// That no record stands there.
    Nothing,
    /// No record yet. More bytes may show one.
    Cut,
}

/// What bytes show, where so many were wanted and fewer come only at the end of a file.
pub(crate) fn shown_by(front: &[u8], wanted: usize) -> Shown
    requires { length front.now ≤ wanted }
    ensures { Shows wanted front.now result }
{
    if let Some((_, count)) = decode_record(front) {
        return Shown::Whole(count);
    }
    if front.len() < wanted || wanted >= LONGEST_RECORD {
        return Shown::Nothing;
    }
    Shown::Cut
}
