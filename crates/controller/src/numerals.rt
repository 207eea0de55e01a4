//! Numbers as words of a command spell them.

ghost use Rattle.std.specs.Prelude.{◌≡◌, ◌≤◌, length, true, false, MatchOption};
ghost use Rattle.std.specs.List.{list_all};
ghost use Rattle.controller.specs.Numerals.{is_digit, is_number, is_upto, is_count, has_leading_zero, value_of};

/// The first of the ten digits.
pub const FIRST_DIGIT: u8 = b'0';

/// The last of the ten digits.
pub const LAST_DIGIT: u8 = b'9';

/// Whether a 0 stands before other digits.
fn has_leading_zero(word: &[u8]) -> bool
    ensures { result ≡ has_leading_zero word.now }
{
    match word {
        [] | [_] => false,
        [first, _, ..] => *first == FIRST_DIGIT,
    }
}

/// The number that at most ten digits spell.
fn value_of(digits: &[u8]) -> u64
    requires few { length digits.now ≤ 10 }
    requires digits { list_all is_digit digits.now ≡ true }
    ensures { result ≡ value_of digits.now }
{
    let mut value: u64 = 0;
    for digit in digits {
        value = value * 10 + u64::from(*digit - FIRST_DIGIT);
    }
    value
}

/// Whether the byte is a digit.
fn is_digit(b: u8) -> bool
    ensures { result ≡ is_digit b }
{
    FIRST_DIGIT <= b && b <= LAST_DIGIT
}

/// Whether each byte is a digit.
fn are_digits(word: &[u8]) -> bool
    ensures { result ≡ list_all is_digit word.now }
{
    word.iter().all(|b| is_digit(*b))
}

/// Whether a word is a number: 1 to `most` digits without a leading zero.
fn is_number(word: &[u8], most: usize) -> bool
    ensures { result ≡ is_number most word.now }
{
    0 < word.len() && word.len() <= most && are_digits(word) && !has_leading_zero(word)
}

/// The number up to `most` that a word is, in at most so many digits.
pub fn number_of(word: &[u8], digits: usize, most: u32) -> Option<u32>
    requires { digits ≤ 10 }
    ensures { MatchOption result (is_upto digits most word.now ≡ false) (λ n. (is_upto digits most word.now ≡ true) × (n ≡ value_of word.now)) }
{
    if !is_number(word, digits) {
        return None;
    }
    let value = value_of(word);
    if value <= u64::from(most) {
        Some(value as u32)
    } else {
        None
    }
}

/// The number from 1 to `most` that a word is, in at most so many digits.
pub fn count_of(word: &[u8], digits: usize, most: u32) -> Option<u32>
    requires { digits ≤ 10 }
    ensures { MatchOption result (is_count digits most word.now ≡ false) (λ n. (is_count digits most word.now ≡ true) × (n ≡ value_of word.now)) }
{
    if !is_number(word, digits) {
        return None;
    }
    let value = value_of(word);
    if 1 <= value && value <= u64::from(most) {
        Some(value as u32)
    } else {
        None
    }
}
