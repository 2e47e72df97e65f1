//! The words of a line, one after the other.
//!
//! Nothing here knows what a word is for. Where words stand is said in `specs/Words.antt`.
ghost use Rattle.std.specs.Prelude.{◌≡◌, ◌++◌, ◌∷◌, [], ◌<◌, ◌≤◌, MatchResult, Some, None, List, ℕ, ◌==◌, ◌&&◌, drop, false, IfSome, length, not, slice_get, take};
ghost use Rattle.std.specs.List.{position_or_len, prefix_len};
ghost use Rattle.xod_base.specs.Values.{same_bytes};
ghost use Rattle.xod_words.specs.Words.{begins_with, is_blank, no_word, one_word, text_on, three_words, two_words, word_on, words_of};

use xod_base::Memory;

/// Why a part of the input was not read.
#[derive(Clone, Copy, Debug, PartialEq, Eq)]
pub enum Unread {
    /// The grammar has no such part.
    Bad,
    /// Memory was refused.
    Memory,
}

impl From<Memory> for Unread {
    ghost use Rattle.std.specs.Prelude.{◌≡◌};
    ghost use Rattle.xod_words.specs.declared.words.Unread.TheVariants.{Memory as refused};

    ghost from_gives = { λ _ unread. unread ≡ refused };

    fn from(_: Memory) -> Self {
        Unread::Memory
    }
}

fn is_blank(byte: u8) -> bool
    ensures { result ≡ is_blank byte }
{
    byte == b' ' || byte == b'\t'
}

/// How many blanks a line begins with.
fn blanks(line: &[u8]) -> usize
    ensures { result ≡ prefix_len is_blank line.now }
{
    line.iter().take_while(|byte| is_blank(**byte)).count()
}

/// The line from its first byte that is no blank.
#[tactic(auto, using(crate::proofs::WordLemmas::cuts))]
fn skip_blanks(line: &[u8]) -> &[u8]
    ensures words { words_of result.now ≡ words_of line.now }
    ensures first { IfSome (slice_get result.now 0) (λ byte. is_blank byte ≡ false) }
{
    let (_, rest) = line.split_at(blanks(line));
    rest
}

/// How many bytes stand before the first blank.
fn word_len(bytes: &[u8]) -> usize
    ensures exact { result ≡ position_or_len is_blank bytes.now }
    ensures within { result ≤ length bytes.now }
{
    bytes.iter().take_while(|byte| !is_blank(**byte)).count()
}

/// Whether a byte is this one and has its meaning: no `\` stands before it that does.
pub(crate) fn is_meant(escaped: bool, byte: u8, mark: u8) -> bool
    ensures { result ≡ (not escaped && (byte == mark)) }
{
    !escaped && byte == mark
}

/// How many bytes stand behind the opening quote of a text, up to its closing quote and with it.
fn text_len(bytes: &[u8]) -> usize
    ensures within { result ≤ length bytes.now }
    ensures cut { (front : List ℕ) → text_on false front bytes.now
        ≡ word_on (front ++ take result bytes.now) (drop result bytes.now) }
{
    let mut escaped = false;
    let mut len = 0;
    for byte in bytes {
        len += 1;
        if is_meant(escaped, *byte, b'"') {
            return len;
        }
        escaped = is_meant(escaped, *byte, b'\\');
    }
    len
}

/// How many bytes a text has behind its opening quote, up to the first blank behind its closing quote.
fn quoted_len(bytes: &[u8]) -> usize
    ensures within { result ≤ length bytes.now }
    ensures cut { (front : List ℕ) → text_on false front bytes.now
        ≡ (front ++ take result bytes.now) ∷ words_of (drop result bytes.now) }
{
    let text = text_len(bytes);
    let (_, behind) = bytes.split_at(text);
    text + word_len(behind)
}

/// How many bytes the word has that begins with a byte, behind that one.
fn len_behind(first: u8, rest: &[u8]) -> usize
    requires { is_blank first ≡ false }
    ensures within { result ≤ length rest.now }
    ensures cut { words_of (first ∷ rest.now)
        ≡ (first ∷ take result rest.now) ∷ words_of (drop result rest.now) }
{
    if first == b'"' {
        quoted_len(rest)
    } else {
        word_len(rest)
    }
}

/// The next word of a line, and what follows it.
pub fn next_word(line: &[u8]) -> Result<(&[u8], &[u8]), Unread>
    ensures { MatchResult result
        (λ found. words_of line.now ≡ found.0.now ∷ words_of found.1.now)
        (λ unread. (unread ≡ Unread.Bad) × (words_of line.now ≡ [])) }
{
    let start = skip_blanks(line);
    match start.split_first() {
        None => Err(Unread::Bad),
        Some((first, rest)) => Ok(start.split_at(1 + len_behind(*first, rest))),
    }
}

/// Nothing, where a line has no word.
#[tactic(auto, unfolding(crate::specs::Words::no_word))]
pub fn no_word(line: &[u8]) -> Result<(), Unread>
    ensures { MatchResult result (λ _. no_word (words_of line.now) ≡ Some tt)
        (λ unread. (unread ≡ Unread.Bad) × (no_word (words_of line.now) ≡ None)) }
{
    match next_word(line) {
        Ok(_) => Err(Unread::Bad),
        Err(_) => Ok(()),
    }
}

/// The word of a line that has one.
#[tactic(auto, unfolding(crate::specs::Words::one_word))]
pub fn one_word(line: &[u8]) -> Result<&[u8], Unread>
    ensures { MatchResult result (λ word. one_word (words_of line.now) ≡ Some word.now)
        (λ unread. (unread ≡ Unread.Bad) × (one_word (words_of line.now) ≡ None)) }
{
    let (word, rest) = next_word(line)?;
    no_word(rest)?;
    Ok(word)
}

/// The words of a line that has two.
#[tactic(auto, unfolding(crate::specs::Words::two_words))]
pub fn two_words(line: &[u8]) -> Result<(&[u8], &[u8]), Unread>
    ensures { MatchResult result
        (λ words. two_words (words_of line.now) ≡ Some (words.0.now, words.1.now))
        (λ unread. (unread ≡ Unread.Bad) × (two_words (words_of line.now) ≡ None)) }
{
    let (first, rest) = next_word(line)?;
    let second = one_word(rest)?;
    Ok((first, second))
}

/// The words of a line that has three.
#[tactic(auto, unfolding(crate::specs::Words::three_words))]
pub fn three_words(line: &[u8]) -> Result<(&[u8], &[u8], &[u8]), Unread>
    ensures { MatchResult result
        (λ words. three_words (words_of line.now) ≡ Some (words.0.now, words.1.now, words.2.now))
        (λ unread. (unread ≡ Unread.Bad) × (three_words (words_of line.now) ≡ None)) }
{
    let (first, rest) = next_word(line)?;
    let (second, third) = two_words(rest)?;
    Ok((first, second, third))
}

/// Whether both have the same bytes.
pub fn is_word(word: &[u8], keyword: &[u8]) -> bool
    ensures { result ≡ same_bytes word.now keyword.now }
{
    word == keyword
}

/// Whether the first byte of a word is this one.
pub fn begins_with(mark: u8, word: &[u8]) -> bool
    ensures { result ≡ begins_with mark word.now }
{
    match word.first() {
        Some(byte) => *byte == mark,
        None => false,
    }
}
