//! The record of calls.
use crate::patch::Patch;
use xod_base::Bytes;

#[derive(Drop)]
pub enum Deed {
    Create,
    Append(Bytes),
    WriteAt(u64, Patch),
    Cut(u64),
    Sync,
    Remove,
    Tear(u64, u64),
    Nothing,
}

#[derive(Drop)]
pub struct Call {
    pub file: u64,
    pub deed: Deed,
}
