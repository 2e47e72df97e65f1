//! A block of records.
ghost use Rattle.std.specs.Prelude.{◌≡◌, ◌<◌, ◌^◌, ◌++◌, true, length, IfOk, OnOk, OnErr};
ghost use Rattle.std.specs.List.{AllByRecursion};
ghost use Rattle.std.specs.Option.{option_copied};
ghost use Rattle.xod_block.specs.Reading.{links_in};
ghost use Rattle.xod_block.specs.Records.{FitsLink, Fits, link_bytes, links_bytes, spelling};
ghost use Rattle.xod_block.specs.Seen.{AreLinks};
ghost use Rattle.xod_trie_mut.specs.Keeps.{AreNamed};
ghost use Rattle.xod_trie_mut.specs.Own.{is_saved, record_by};
ghost use Rattle.xod_trie_mut.specs.Saves.{further};

use crate::keep::Keep;
use crate::own_branch::{OwnBranch, Seats};
use crate::seat::{Seat, Stand};
use std::alloc::Global;
use std::mem;
use xod_base::{Bytes, Memory};
use xod_block::{Address, LogRecord, encode_link, encode_record};

/// Bytes of records, of which the first one has an address.
#[derive(Debug, Drop)]
pub struct Block {
    pub start: Address,
    pub bytes: Bytes,
    ghost small: { start.at < 2 ^ 63 },
}

/// How many bytes there are. No list has 2^63 of them.
fn count_of(alloc: Global, bytes: &mut Bytes) -> u64
    ensures count { result ≡ length bytes.old }
    ensures small { result < 2 ^ 63 }
    ensures same { bytes.new ≡ bytes.old }
{
    let items = mem::replace(bytes, Bytes::new(alloc)).into_vec();
    let count = items.len() as u64;
    *bytes = Bytes::from_vec(items);
    count
}

/// The bytes of one link.
fn push_link(raw: &mut Bytes, byte: u8, at: Address) -> Result<(), Memory>
    ensures put { OnOk result (raw.new ≡ raw.old ++ link_bytes (byte, at)) }
    ensures fits { FitsLink (byte, at) }
{
    let _file = at.file;
    let _place = at.at;
    raw.extend(&encode_link(byte, at))?;
    Ok(())
}

/// The bytes of children, of which each is a record.
fn links_of(alloc: Global, children: &[(u8, Seat)]) -> Result<Bytes, Memory>
    requires { AreNamed is_saved children.now }
    ensures raw { IfOk result (λ raw. raw ≡ links_bytes children.now) }
    ensures fits { OnOk result (AllByRecursion FitsLink children.now) }
{
    let mut raw = Bytes::new(alloc);
    for index in 0..children.len() {
        let (byte, seat) = children[index];
        let Stand::Saved(at) = seat.stand() else {
            unreachable!();
        };
        push_link(&mut raw, byte, at)?;
    }
    Ok(raw)
}

/// Puts a record at the end. One with a value and no child is a leaf.
fn put_record<'a>(
    alloc: Global,
    out: &mut Bytes,
    key: &'a [u8],
    value: Option<&'a [u8]>,
    children: &'a [u8],
) -> Result<(), Memory>
    requires whole { AreLinks children.now }
    requires fits { Fits (record_by key.now (option_copied value) (links_in children.now)) }
    ensures ok { OnOk result (out.new ≡ out.old
        ++ spelling (record_by key.now (option_copied value.entry) (links_in children.now))) }
    ensures err { OnErr result (out.new ≡ out.old) }
{
    match value {
        None => encode_record(
            alloc,
            out,
            &LogRecord::Node {
                key,
                value: None,
                children,
            },
        ),
        Some(value) if children.is_empty() => {
            encode_record(alloc, out, &LogRecord::Leaf { key, value })
        }
        Some(value) => encode_record(
            alloc,
            out,
            &LogRecord::Node {
                key,
                value: Some(value),
                children,
            },
        ),
    }
}

/// The address behind bytes that begin at one.
fn place_behind(start: Address, count: u64) -> Address
    requires start { start.at < 2 ^ 63 }
    requires count { count < 2 ^ 63 }
    ensures place { result ≡ further start count }
    ensures saved { is_saved result ≡ true }
{
    Address {
        file: start.file,
        at: start.at + count,
    }
}

impl Keep for Block {
    ghost use Rattle.xod_trie.specs.Branches.{FitsBranch};
    ghost use Rattle.xod_trie_mut.specs.Own.{record_as};

    ghost place = { λ block. further block.start (length block.bytes) };

    ghost with_last = { λ block branch.
        record block { bytes = block.bytes ++ spelling (record_as branch) } };

    ghost names = { is_saved };

    ghost takes = { FitsBranch };

    ghost names_records = { λ at saved. saved };

    fn keep(&mut self, alloc: Global, branch: &OwnBranch, children: Seats) -> Result<Seat, Memory> {
        let links = links_of(alloc, children.as_slice())?;
        let at = place_behind(self.start, count_of(alloc, &mut self.bytes));
        put_record(
            alloc,
            &mut self.bytes,
            branch.key(),
            branch.value(),
            links.as_slice(),
        )?;
        Ok(Seat::saved(at))
    }
}
