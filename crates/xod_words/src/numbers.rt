//! Decimal numbers, integers and ids.
//!
//! It is handed whole words, and nothing here knows what they are for. The rules stand in `specs/Numbers.antt`.
ghost use Rattle.std.specs.Prelude.{◌≡◌, ◌+◌, ◌-◌, ◌*◌, ◌^◌, ◌<◌, ◌≤◌, ◌==◌, IfSome, MatchOption, SomeIff, length};
ghost use Rattle.std.specs.List.{list_all, position_or_len};
ghost use Rattle.xod_base.specs.Names.{is_digit};
ghost use Rattle.xod_words.specs.Numbers.{count_of, dash_at, decimal_of, has_no_leading_zero, id_from, id_of, integer_of, is_decimal, negated_of, number_after, unsigned_of};
ghost use Rattle.xod_words.specs.Reads.{Reads};

use crate::names::is_digit;
use crate::words::Unread;
use xod_base::EntityId;

/// The first number that is no `i64`.
const PAST_I64: u64 = 1 << 63;

fn all_digits(word: &[u8]) -> bool
    ensures { result ≡ list_all is_digit word.now }
{
    word.iter().all(|byte| is_digit(*byte))
}

fn has_no_leading_zero(word: &[u8]) -> bool
    ensures { result ≡ has_no_leading_zero word.now }
{
    match word {
        [] => false,
        [_] => true,
        [first, ..] => *first != b'0',
    }
}

fn is_decimal(word: &[u8]) -> bool
    ensures { result ≡ is_decimal word.now }
{
    all_digits(word) && has_no_leading_zero(word)
}

/// A number with one digit more at its end.
fn with_digit(number: u64, digit: u8) -> Option<u64>
    ensures { SomeIff result (10 * number + (digit - 48) < 2 ^ 64) (10 * number + (digit - 48)) }
{
    let tens = number.checked_mul(10)?;
    tens.checked_add(u64::from(digit.saturating_sub(b'0')))
}

/// The number of decimal digits, where it has 64 bits.
fn number_of(digits: &[u8]) -> Option<u64>
    ensures { SomeIff result (number_after 0 digits.now < 2 ^ 64) (number_after 0 digits.now) }
{
    let mut number = 0;
    for digit in digits {
        number = with_digit(number, *digit)?;
    }
    Some(number)
}

/// The number of a word, where it has 64 bits.
#[tactic(auto, unfolding(crate::specs::Numbers::decimal_of))]
fn decimal(word: &[u8]) -> Option<u64>
    ensures { MatchOption result (IfSome (decimal_of word.now) (λ number. 2 ^ 64 ≤ number))
        (λ number. decimal_of word.now ≡ Some number) }
{
    if !is_decimal(word) {
        return None;
    }
    number_of(word)
}

/// The integer of digits alone.
#[tactic(auto, unfolding(crate::specs::Numbers::unsigned_of))]
fn unsigned(digits: &[u8]) -> Option<i64>
    ensures { result ≡ unsigned_of digits.now }
{
    let number = decimal(digits)?;
    if number < PAST_I64 {
        Some(number as i64)
    } else {
        None
    }
}

/// The integer of digits behind a `-`.
#[tactic(auto, unfolding(crate::specs::Numbers::negated_of))]
fn negated(digits: &[u8]) -> Option<i64>
    ensures { result ≡ negated_of digits.now }
{
    let number = decimal(digits)?;
    if number == 0 || number > PAST_I64 {
        return None;
    }
    Some(-1 - (number - 1) as i64)
}

/// The integer of a word.
#[tactic(auto, unfolding(crate::specs::Numbers::integer_of))]
fn integer(word: &[u8]) -> Option<i64>
    ensures { result ≡ integer_of word.now }
{
    match word.split_first() {
        None => None,
        Some((b'-', digits)) => negated(digits),
        Some(_) => unsigned(word),
    }
}

/// The integer of a word.
pub fn read_integer(word: &[u8]) -> Result<i64, Unread>
    ensures { Reads result (integer_of word.now) }
{
    integer(word).ok_or(Unread::Bad)
}

/// The number of a word, where it has 32 bits.
#[tactic(auto, unfolding(crate::specs::Numbers::count_of))]
pub fn count(word: &[u8]) -> Option<u32>
    ensures { result ≡ count_of word.now }
{
    let number = decimal(word)?;
    u32::try_from(number).ok()
}

/// The number of a word, which has 32 bits.
pub fn read_count(word: &[u8]) -> Result<u32, Unread>
    ensures { Reads result (count_of word.now) }
{
    count(word).ok_or(Unread::Bad)
}

/// How many bytes stand before the first `-`.
fn dash_at(word: &[u8]) -> usize
    ensures exact { result ≡ dash_at word.now }
    ensures within { result ≤ length word.now }
{
    word.iter().take_while(|byte| **byte != b'-').count()
}

/// The id of a number, and of what follows it from the `-` on.
#[tactic(auto, unfolding(crate::specs::Numbers::id_from))]
fn id_from(kind: &[u8], rest: &[u8]) -> Option<EntityId>
    ensures { result ≡ id_from kind.now rest.now }
{
    let (_, local) = rest.split_first()?;
    let kind = count(kind)?;
    let local = count(local)?;
    Some(EntityId { kind, local })
}

/// The id of a word.
pub fn read_id(word: &[u8]) -> Result<EntityId, Unread>
    ensures { Reads result (id_of word.now) }
{
    let (kind, rest) = word.split_at(dash_at(word));
    id_from(kind, rest).ok_or(Unread::Bad)
}
