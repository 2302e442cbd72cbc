// The bytes of a journal: lines, words, numbers and hex digits.
ghost use Rattle.std.specs.Prelude.{◌≡◌, [], ◌∷◌, not, ◌-◌, ◌^◌, ◌≤◌, min, IfOk, MatchOption, ◌==◌, slice_index, position};
ghost use Rattle.std.specs.List.{list_all, prefix_len};
ghost use Rattle.journal.specs.Text.{Told, pair, paired, bytes_of_hex, blank, allowed, digit, nibble, hex, value, number, unended};
ghost use Rattle.journal.specs.Text.{words, no_words, only, two, four, five};

use crate::Wrong;
use std::alloc::{AllocError, Global};

// A space or a tab.
fn is_blank(b: u8) -> bool
    ensures { result ≡ blank b }
{
    b == b' ' || b == b'\t'
}

// Whether the byte may stand in a line.
fn is_allowed(b: u8) -> bool
    ensures { result ≡ allowed b }
{
    is_blank(b) || b.is_ascii_graphic()
}

// What a hex digit says, by its range.
fn nibble(b: u8) -> Option<u8>
    ensures { result ≡ nibble b }
{
    match b {
        b'0'..=b'9' => Some(b - b'0'),
        b'a'..=b'f' => Some(b - b'a' + 10),
        b'A'..=b'F' => Some(b - b'A' + 10),
        _ => None,
    }
}

// Whether every byte of a line may stand there.
pub(crate) fn is_clean(line: &[u8]) -> bool
    ensures { result ≡ list_all allowed line.now }
{
    line.iter().all(|b| is_allowed(*b))
}

// Whether every byte of a word is a digit, and whether every one is a hex digit. The proofs of the callers go by these two
// contracts.
fn all_digits(word: &[u8]) -> bool
    ensures { result ≡ list_all digit word.now }
{
    word.iter().all(|b| b.is_ascii_digit())
}

fn all_hex(word: &[u8]) -> bool
    ensures { result ≡ list_all hex word.now }
{
    word.iter().all(|b| nibble(*b).is_some())
}

// Where the first word of a line begins.
fn word_start(line: &[u8]) -> Option<usize>
    ensures { result ≡ position (λ b. not (blank b)) line.now }
{
    line.iter().position(|b| !is_blank(*b))
}

// How many bytes the word has that a line begins with.
fn word_len(line: &[u8]) -> usize
    ensures { result ≡ prefix_len (λ b. not (blank b)) line.now }
{
    line.iter().take_while(|b| !is_blank(**b)).count()
}

// The first word of a line, and what follows it.
pub(crate) fn split_word(line: &[u8]) -> Option<(&[u8], &[u8])>
    ensures { MatchOption result (words line.now ≡ []) (λ p. words line.now ≡ p.0.now ∷ words p.1.now) }
{
    let line = &line[word_start(line)?..];
    Some(line.split_at(word_len(line)))
}

// The one word of a line's rest.
pub(crate) fn only_word(line: &[u8]) -> Result<&[u8], Wrong>
    ensures { Told result (λ w. w.now) (only (words line.now)) }
{
    let (word, rest) = split_word(line).ok_or(Wrong::TooFewWords)?;
    match split_word(rest) {
        None => Ok(word),
        Some(_) => Err(Wrong::TooManyWords),
    }
}

// Refuses a line's rest that has a word.
pub(crate) fn no_words(line: &[u8]) -> Result<(), Wrong>
    ensures { result ≡ no_words (words line.now) }
{
    match split_word(line) {
        None => Ok(()),
        Some(_) => Err(Wrong::TooManyWords),
    }
}

// The two, four or five words of a line's rest.
pub(crate) fn two_words(line: &[u8]) -> Result<(&[u8], &[u8]), Wrong>
    ensures { Told result (λ p. (p.0.now, p.1.now)) (two (words line.now)) }
{
    let (first, rest) = split_word(line).ok_or(Wrong::TooFewWords)?;
    Ok((first, only_word(rest)?))
}

pub(crate) fn four_words(line: &[u8]) -> Result<(&[u8], &[u8], &[u8], &[u8]), Wrong>
    ensures { Told result (λ p. (p.0.now, p.1.now, p.2.now, p.3.now)) (four (words line.now)) }
{
    let (first, rest) = split_word(line).ok_or(Wrong::TooFewWords)?;
    let (second, rest) = split_word(rest).ok_or(Wrong::TooFewWords)?;
    let (third, fourth) = two_words(rest)?;
    Ok((first, second, third, fourth))
}

pub(crate) fn five_words(line: &[u8]) -> Result<(&[u8], &[u8], &[u8], &[u8], &[u8]), Wrong>
    ensures { Told result (λ p. (p.0.now, p.1.now, p.2.now, p.3.now, p.4.now)) (five (words line.now)) }
{
    let (first, rest) = split_word(line).ok_or(Wrong::TooFewWords)?;
    let (second, third, fourth, fifth) = four_words(rest)?;
    Ok((first, second, third, fourth, fifth))
}

// The number that decimal digits say, or the greatest of the type where it is greater.
fn value(digits: &[u8]) -> u64
    ensures { result ≡ min (value digits.now) (2 ^ 64 - 1) }
{
    digits.iter().fold(0, |n: u64, b| {
        n.saturating_mul(10)
            .saturating_add(u64::from(b.saturating_sub(b'0')))
    })
}

// The number that a word says, up to a limit.
pub(crate) fn number(limit: u32, word: &[u8]) -> Result<u32, Wrong>
    ensures value { result ≡ number limit word.now }
    ensures limited { IfOk result (λ n. n ≤ limit) }
{
    if word.is_empty() {
        return Err(Wrong::MissingNumber);
    }
    if !all_digits(word) {
        return Err(Wrong::NotANumber);
    }
    let value = value(word);
    if value > u64::from(limit) {
        return Err(Wrong::NumberTooLarge);
    }
    Ok(value as u32)
}

// The number that a word says, at most 65535.
pub(crate) fn short_number(word: &[u8]) -> Result<u16, Wrong>
    ensures { result ≡ number 65535 word.now }
{
    Ok(number(65535, word)? as u16)
}

// Whether a line that begins with this word is a comment.
pub(crate) fn is_comment(word: &[u8]) -> bool
    ensures { result ≡ (slice_index word.now 0 == 35) }
{
    matches!(word, [b'#', ..])
}

// A line without the line feed at its end, and without a carriage return before that.
pub(crate) fn unended(line: &[u8]) -> &[u8]
    ensures { result.now ≡ unended line.now }
{
    match line {
        [front @ .., b'\r', b'\n'] | [front @ .., b'\n'] => front,
        _ => line,
    }
}

// Refuses a word that is not hex digits, two for each byte.
pub(crate) fn check_hex(word: &[u8]) -> Result<(), Wrong>
    ensures { Told result (λ _. paired word.now) (bytes_of_hex word.now) }
{
    if !all_hex(word) {
        Err(Wrong::NotHex)
    } else if word.len() % 2 != 0 {
        Err(Wrong::OddHex)
    } else {
        Ok(())
    }
}

// The byte that two hex digits say; `check_hex` refuses all others before.
fn pair(high: u8, low: u8) -> u8
    ensures { result ≡ pair high low }
{
    16 * nibble(high).unwrap_or(0) + nibble(low).unwrap_or(0)
}

// The bytes that hex digits say.
pub(crate) fn decode(heap: Global, digits: &[u8]) -> Result<Vec<u8>, AllocError>
    ensures { IfOk result (λ v. v.items ≡ paired digits.now) }
{
    let (pairs, _) = digits.as_chunks::<2>();
    pairs
        .iter()
        .map(|[high, low]| pair(*high, *low))
        .collect(heap)
}
