//! Reading the record at an address out of a lease.
//!
//! A record tells its length only by its parts. So a short piece is read first, and one twice as long where no record
//! stands in a full piece. Each piece is longer than the one before, and none longer than the longest record, so this
//! ends over any bytes.
ghost use Rattle.std.specs.Prelude.{◌≡◌, ◌≢◌, ◌≤◌, ◌<◌, length, drop, IsTrue, IfOk, OnOk, OnErr, Err, None};
ghost use Rattle.xod_base.specs.declared.causes.Place.{Place};
ghost use Rattle.xod_base.specs.declared.causes.ReadError.TheVariants.{Damaged};
ghost use Rattle.xod_base.specs.Views.{CountsFaults};
ghost use Rattle.xod_block.specs.Addresses.{number_of};
ghost use Rattle.xod_block.specs.Bodies.{records_of};
ghost use Rattle.xod_block.specs.Fetches.{Fetched, place_of};
ghost use Rattle.xod_volume.specs.Files.{bytes_of};
ghost use Rattle.xod_pages.specs.Lent.{KeepsLease, lent_bodies};
ghost use Rattle.xod_pages.specs.Shows.{Looked};

use crate::pages::FIRST_PIECE;
use crate::shown::{LONGEST_RECORD, Shown, shown_by};
use xod_base::{Bytes, Memory, Place, ReadError};
use xod_block::Address;
use xod_volume::Lease;

/// An address as a place in a volume file.
fn place_of(at: Address) -> Place
    ensures { result ≡ place_of at }
{
    Place {
        file: 2 * u64::from(at.file),
        at: at.at,
    }
}

/// Gives the room this size.
fn make_room(room: &mut Vec<u8>, size: usize) -> Result<(), Memory>
    ensures { OnOk result (length room.new.items ≡ size) }
{
    room.resize(size, 0)?;
    Ok(())
}

/// Reads a piece of a file from a place on, and looks what it shows.
fn look<L: Lease>(lease: &mut L, place: Place, piece: &mut [u8]) -> Result<Shown, ReadError>
    ensures looked { IfOk result (Looked (L.tells lease.old)
        (drop place.at (bytes_of (L.lent lease.old) place.file)) piece.new) }
    ensures counts { CountsFaults (L.faults lease.old) (L.faults lease.new) result }
    ensures never_damaged { (other : Place) → result ≢ Err (Damaged other) }
    ensures keeps { KeepsLease L.tells L.list L.lent L.refs L.faults lease.old lease.new }
{
    let Ok(count) = lease.read(place.file, place.at, piece) else {
        return Err(ReadError::Device);
    };
    let (front, _) = piece.split_at(count.min(piece.len()));
    Ok(shown_by(front, piece.len()))
}

/// Looks what a piece of this size shows.
fn look_by<L: Lease>(
    lease: &mut L,
    place: Place,
    room: &mut Vec<u8>,
    size: usize,
) -> Result<Shown, ReadError>
    ensures looked { IfOk result (Looked (L.tells lease.old)
        (drop place.at (bytes_of (L.lent lease.old) place.file)) room.new.items) }
    ensures size { OnOk result (length room.new.items ≡ size) }
    ensures counts { CountsFaults (L.faults lease.old) (L.faults lease.new) result }
    ensures never_damaged { (other : Place) → result ≢ Err (Damaged other) }
    ensures keeps { KeepsLease L.tells L.list L.lent L.refs L.faults lease.old lease.new }
{
    make_room(room, size)?;
    let shown = look(lease, place, room.as_mut_slice())?;
    Ok(shown)
}

/// Puts the bytes of the record at an address at the end of `out`, and answers how many they are. Pieces are read into
/// the room, which grows as far as a record needs it.
pub fn read_record<L: Lease>(
    lease: &mut L,
    room: &mut Vec<u8>,
    at: Address,
    out: &mut Bytes,
) -> Result<usize, ReadError>
    ensures found { IfOk result (λ count. Fetched (L.tells lease.old)
        (records_of (lent_bodies (L.lent lease.old)) (number_of at)) out.old out.new count) }
    ensures counts { CountsFaults (L.faults lease.old) (L.faults lease.new) result }
    ensures damaged_only_without_a_record { IsTrue (L.tells lease.old) → (place : Place)
        → result ≡ Err (Damaged place)
        → records_of (lent_bodies (L.lent lease.old)) (number_of at) ≡ None }
    ensures damaged_names_this_place { (place : Place)
        → result ≡ Err (Damaged place) → place ≡ place_of at }
    ensures err { OnErr result (out.new ≡ out.old) }
    ensures keeps { KeepsLease L.tells L.list L.lent L.refs L.faults lease.old lease.new }
{
    let place = place_of(at);
    let mut size = FIRST_PIECE;
    'longer: loop {
        match look_by(lease, place, room, size)? {
            Shown::Whole(count) => {
                let (record, _) = room.as_slice().split_at(count);
                out.extend(record)?;
                return Ok(count);
            }
            Shown::Nothing => return Err(ReadError::Damaged(place)),
            Shown::Cut => size = (2 * size).min(LONGEST_RECORD),
        }
    }
}
