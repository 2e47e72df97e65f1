//! The command line: the one command, and its option.
//!
//! What words ask for stands in `specs/Commands.antt`.
ghost use Rattle.std.specs.Prelude.{◌≡◌, map, string_bytes};
ghost use Rattle.xod_shell.specs.Commands.{is_replay, is_target, target_asked, target_behind, target_in};

use xod_words::count;

/// The length at which log files are rolled where the words ask for no other.
pub const DEFAULT_TARGET: u64 = 1048576;

/// The least length that may be asked for.
pub const LEAST_TARGET: u64 = 4096;

/// The greatest length that may be asked for.
pub const MOST_TARGET: u64 = 8388608;

/// The name of the option with `=` behind it.
const TARGET_IS: &[u8] = b"--target=";

fn is_replay(word: &String) -> bool
    ensures { result ≡ is_replay (string_bytes word.now) }
{
    word.as_str() == "replay"
}

fn is_target(word: &String) -> bool
    ensures { result ≡ is_target (string_bytes word.now) }
{
    word.as_str() == "--target"
}

/// The length that a word is.
fn target_in(word: &[u8]) -> Option<u64>
    ensures { result ≡ target_in word.now }
{
    let target = u64::from(count(word)?);
    if target < LEAST_TARGET || target > MOST_TARGET {
        return None;
    }
    Some(target)
}

/// The length that a word has behind the option's name.
fn target_behind(word: &[u8]) -> Option<u64>
    ensures { result ≡ target_behind word.now }
{
    target_in(word.strip_prefix(TARGET_IS)?)
}

/// The length at which log files are to be rolled; none where the words are no command.
pub fn target_asked(words: &[String]) -> Option<u64>
    ensures { result ≡ target_asked (map (λ word. string_bytes word) words.now) }
{
    match words {
        [command] => is_replay(command).then_some(DEFAULT_TARGET),
        [command, option] => {
            if !is_replay(command) {
                return None;
            }
            target_behind(option.as_bytes())
        }
        [command, option, value] => {
            if !is_replay(command) || !is_target(option) {
                return None;
            }
            target_in(value.as_bytes())
        }
        _ => None,
    }
}
