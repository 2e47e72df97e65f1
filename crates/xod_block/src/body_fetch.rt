//! Records of bodies in memory.
//!
//! It serves where no volume is at hand, as in the tests of the crates above.
ghost use Rattle.std.specs.Prelude.{◌≡◌, drop, IfSome, IfNone, Option, None};
ghost use Rattle.xod_block.specs.Reading.{record_at};
ghost use Rattle.xod_block.specs.Bodies.{IsRecordAt, bodies_in, records_of};

use crate::address::Address;
use crate::fetch::Fetch;
use crate::reading::decode_record;
use std::alloc::Global;
use xod_base::{Bytes, Place, ReadError};

/// The bytes of a log file, and its number.
#[derive(Clone, Copy, Debug)]
pub struct Body<'a> {
    pub file: u32,
    pub bytes: &'a [u8],
}

/// Bodies, each the whole of its log file; of two with one number the first one counts. It tells its records, and
/// nothing outside can fail.
#[derive(Clone, Copy, Debug)]
pub struct BodyFetch<'a> {
    pub bodies: &'a [Body<'a>],
}

/// The bytes of a log file, of which an absent one has none.
fn bytes_of<'a>(bodies: &[Body<'a>], file: u32) -> &'a [u8]
    ensures { result.now ≡ bodies_in bodies.now file }
{
    for body in bodies {
        if body.file == file {
            return body.bytes;
        }
    }
    &[]
}

/// The bytes of the record at a place of a body, and `None` exactly where there is none.
fn record_in(body: &[u8], at: u64) -> Option<&[u8]>
    ensures found { IfSome result (λ bytes. IsRecordAt body.now at bytes.now) }
    ensures none { IfNone result (record_at (drop at body.now) ≡ None) }
{
    if at > body.len() as u64 {
        return None;
    }
    let (_, rest) = body.split_at(at as usize);
    let (_, length) = decode_record(rest)?;
    let (bytes, _) = rest.split_at(length);
    Some(bytes)
}

impl Fetch for BodyFetch<'_> {
    ghost use Rattle.std.specs.Prelude.{true, []};

    ghost tells = { λ _. true };

    ghost records = { λ fetch. records_of (bodies_in fetch.bodies.now) };

    ghost faults = { λ _. 0 };

    ghost refs = { λ _. [] };

    ghost use Rattle.xod_block.specs.Rising.{records_of-rises, records_of-branches};

    ghost rises = { λ fetch. records_of-rises (bodies_in fetch.bodies.now) };

    ghost branches = { λ fetch. records_of-branches (bodies_in fetch.bodies.now) };

    fn fetch(&mut self, _alloc: Global, at: Address, out: &mut Bytes) -> Result<usize, ReadError> {
        let Some(bytes) = record_in(bytes_of(self.bodies, at.file), at.at) else {
            return Err(ReadError::Damaged(Place {
                file: 2 * u64::from(at.file),
                at: at.at,
            }));
        };
        if out.extend(bytes).is_err() {
            return Err(ReadError::Memory);
        }
        Ok(bytes.len())
    }
}
