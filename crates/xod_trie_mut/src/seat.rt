//! Where a branch stands: in a record of the log, or in memory.
ghost use Rattle.std.specs.Prelude.{◌≡◌};
ghost use Rattle.xod_trie_mut.specs.Own.{own_address};
ghost use Rattle.xod_trie_mut.specs.Seats.{IsStand};

use std::marker::Model;
use xod_block::Address;

/// The file number of the branches in memory: the first that no log file has.
const OWN_FILE: u64 = 1 << 32;

/// Where a branch stands, seen as its address. Those in memory have addresses above all records of the log.
#[derive(Clone, Copy, Debug)]
pub struct Seat {
    file: u64,
    at: u64,
}

impl Model for Seat {
    ghost use Rattle.std.specs.Prelude.{◌≤◌, ◌^◌};
    ghost use Rattle.xod_block.specs.declared.address.Address.{Address};
    ghost use Rattle.xod_block.specs.contracts.address.Address as address_contracts;

    ghost Value = { Address };

    ghost coded = { (address_contracts.the_row).coded };

    ghost view = { λ seat. record { file = seat.file; at = seat.at } };

    ghost inverse = { λ address. record { file = address.file; at = address.at } };

    ghost invariant = { λ seat. seat.file ≤ 2 ^ 32 };
}

/// What a seat is.
#[derive(Clone, Copy, Debug)]
pub enum Stand {
    /// A record at this address.
    Saved(Address),
    /// The branch at this place of the list in memory.
    Own(u64),
}

impl Seat {
    /// The seat of a record.
    pub fn saved(at: Address) -> Seat
        ensures { result ≡ at }
    {
        Seat {
            file: u64::from(at.file),
            at: at.at,
        }
    }

    /// The seat of a branch in memory.
    pub fn own(index: u64) -> Seat
        ensures { result ≡ own_address index }
    {
        Seat {
            file: OWN_FILE,
            at: index,
        }
    }

    /// What it is.
    pub fn stand(self) -> Stand
        ensures { IsStand self result }
    {
        let Seat { file, at } = self;
        if file >= OWN_FILE {
            return Stand::Own(at);
        }
        Stand::Saved(Address {
            file: file as u32,
            at,
        })
    }
}
