//! How many log files a volume has.
//!
//! Numbers alone: no volume. A log file is there where its body and its ends both are, and in a rising list the ends come
//! right behind their body.
ghost use Rattle.std.specs.Prelude.{◌≡◌, ◌<◌, ◌≤◌, ◌+◌, ◌^◌, ◌==◌, true, if◌then◌else◌};
ghost use Rattle.std.specs.FinMap.{keys};
ghost use Rattle.std.specs.List.{list_any};
ghost use Rattle.xod_log.specs.Standing.{has_pair};
ghost use Rattle.xod_volume.specs.Files.{Files};
ghost use Rattle.xod_env.specs.Counts.{ends_behind, is_wanted, pairs_among};
ghost use Rattle.xod_env.specs.Envs.{log_file_count};

use crate::bodies::is_body_up_to;

/// The ends of a body. A volume file that is no log file's body has none.
fn ends_behind(number: u64) -> Option<u64>
    ensures { result ≡ ends_behind number }
{
    if is_body_up_to(number, u32::MAX) {
        Some(number + 1)
    } else {
        None
    }
}

/// Whether a volume file is the one that was looked for.
fn is_wanted(wanted: Option<u64>, number: u64) -> bool
    ensures { result ≡ is_wanted wanted number }
{
    match wanted {
        None => false,
        Some(wanted) => number == wanted,
    }
}

/// How many bodies have their ends right behind them.
fn pairs_among(numbers: &[u64]) -> u64
    ensures count { result ≡ pairs_among numbers.now }
{
    let mut count: u64 = 0;
    let mut wanted = None;
    for number in numbers {
        if is_wanted(wanted, *number) {
            count += 1;
        }
        wanted = ends_behind(*number);
    }
    count
}

/// How many log files a volume has that has files with these numbers.
pub(crate) fn count_log_files(numbers: &[u64]) -> u64
    ensures { (files : Files) → numbers.now ≡ keys files → result ≡ log_file_count files }
{
    pairs_among(numbers)
}

/// Whether the list has the number.
fn lists(numbers: &[u64], file: u64) -> bool
    ensures { result ≡ list_any (λ other. other == file) numbers.now }
{
    numbers.contains(&file)
}

/// Whether the log file behind one is there, of a volume whose files have these numbers.
pub(crate) fn lists_next(numbers: &[u64], file: u32) -> bool
    ensures { (files : Files) → numbers.now ≡ keys files → result ≡ has_pair files (file + 1) }
{
    let body = 2 * (u64::from(file) + 1);
    let has_body = lists(numbers, body);
    let has_ends = lists(numbers, body + 1);
    has_body & has_ends
}

/// How many log files there are once the next one may have come to be.
pub(crate) fn count_next(count: u64, had_next: bool, has_next: bool) -> u64
    ensures { (had_next ≡ true → has_next ≡ true) → count + 1 < 2 ^ 64
        → result + (if had_next then 1 else 0) ≡ count + (if has_next then 1 else 0) }
{
    if has_next && !had_next {
        count.saturating_add(1)
    } else {
        count
    }
}
