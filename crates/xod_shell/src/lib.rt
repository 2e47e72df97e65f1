//! From the bytes of an input to the bytes of a transcript, over the store in a volume.
//!
//! A script is read, the store is opened, the sessions play the script's order over it, the transcript is told, and the
//! store is closed. The top call puts this together; its contract says what a run of the program prints, with which status
//! it ends, and what it and a crash leave of the store. What an ending says stands in `specs/Endings.antt`, what becomes of
//! the store in `specs/Runs.antt`.
#![tactic(auto)]

mod command;
mod ending;
mod kept;
mod quiet;
mod run;
mod status;
mod telling;

pub use command::target_asked;
pub use ending::Ending;
pub use quiet::{Outcome, xod_quiet};
pub use telling::tell;
