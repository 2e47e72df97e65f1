//! How a run ends. What each ending prints, its status and its cause stand in `specs/Endings.antt`.
ghost use Rattle.std.specs.Prelude.{◌≡◌, IfOk};
ghost use Rattle.xod_shell.specs.Endings.{bad_line_text, damaged_text, status_of, text_of, untaken_text};

use std::alloc::Global;
use xod_base::{Bytes, Memory, Place};

/// How a run ends, in the order in which endings are told.
#[derive(Debug, Drop)]
pub enum Ending {
    /// The words of the command line are no command. Nothing was read.
    Usage,
    /// The source failed.
    SourceFailed,
    /// The input has more bytes than the limit.
    TooLong,
    /// The first line of the input that is bad, and its text.
    BadLine { line: u32, text: Bytes },
    /// The device failed while the store was opened.
    DeviceFailed,
    /// The store's files are damaged: the first bad place, and its text.
    Damaged { place: Place, text: Bytes },
    /// The first item of the order that can't be taken, and its text.
    Untaken { item: u64, text: Bytes },
    /// Memory was refused, for the words or before a transcript was there.
    NoMemory,
    /// The transcript, and the status by the stops that this run met and by the closing of the store.
    Printed { status: u8, text: Bytes },
}

impl Ending {
    /// The ending at a bad line.
    pub fn bad_line(alloc: Global, line: u32) -> Result<Ending, Memory>
        ensures { IfOk result (λ ending. ending ≡ Ending.BadLine line (bad_line_text line)) }
    {
        let text = format!(in alloc; "xod: script line {line}\n")?;
        let text = Bytes::from_vec(text.into_bytes());
        Ok(Ending::BadLine { line, text })
    }

    /// The ending at a bad place of a volume file.
    pub fn damaged(alloc: Global, place: Place) -> Result<Ending, Memory>
        ensures { IfOk result (λ ending. ending ≡ Ending.Damaged place (damaged_text place)) }
    {
        let (file, at) = (place.file, place.at);
        let text = format!(in alloc; "xod: damaged file {file} at {at}\n")?;
        let text = Bytes::from_vec(text.into_bytes());
        Ok(Ending::Damaged { place, text })
    }

    /// The ending at an item that can't be taken.
    pub fn untaken(alloc: Global, item: u64) -> Result<Ending, Memory>
        ensures { IfOk result (λ ending. ending ≡ Ending.Untaken item (untaken_text item)) }
    {
        let text = format!(in alloc; "xod: order item {item}\n")?;
        let text = Bytes::from_vec(text.into_bytes());
        Ok(Ending::Untaken { item, text })
    }

    /// The exit status.
    pub fn status(&self) -> u8
        ensures { result ≡ status_of self.now }
    {
        match self {
            Ending::Usage => 2,
            Ending::SourceFailed => 6,
            Ending::TooLong => 3,
            Ending::BadLine { .. } => 3,
            Ending::DeviceFailed => 4,
            Ending::Damaged { .. } => 8,
            Ending::Untaken { .. } => 9,
            Ending::NoMemory => 5,
            Ending::Printed { status, .. } => *status,
        }
    }

    /// What is printed.
    pub fn text(&self) -> &[u8]
        ensures { result.now ≡ text_of self.now }
    {
        match self {
            Ending::Usage => b"xod: usage\n",
            Ending::SourceFailed => b"xod: source failed\n",
            Ending::TooLong => b"xod: script too long\n",
            Ending::DeviceFailed => b"xod: device failed\n",
            Ending::NoMemory => b"xod: memory\n",
            Ending::BadLine { text, .. }
            | Ending::Damaged { text, .. }
            | Ending::Untaken { text, .. }
            | Ending::Printed { text, .. } => { text.as_slice() }
        }
    }
}
