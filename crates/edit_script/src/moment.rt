//! When an edit is due, in digits.

ghost use Rattle.std.specs.Prelude.{◌≡◌, ◌≤◌, length, All, IsTrue};
ghost use Rattle.p21_lex.specs.Class.{is_digit};
ghost use Rattle.std.specs.List.{list_all};
ghost use Rattle.std.specs.Str.Parse.{digits_value};
ghost use Rattle.edit_script.specs.Script.{is_moment};
ghost use Rattle.edit_script.specs.Source.{moment_in};

/// How many digits say at most when an edit is due (this profile).
const MAX_MOMENT_DIGITS: usize = 7;

/// Whether all bytes are digits.
fn are_digits(text: &[u8]) -> bool
    ensures { result ≡ list_all is_digit text.now }
{
    text.iter().all(|byte| matches!(*byte, b'0'..=b'9'))
}

/// Whether these are one to seven digits, of which the first is no zero, or a zero alone.
fn is_moment(text: &[u8]) -> bool
    ensures { result ≡ is_moment text.now }
{
    let digits = are_digits(text);
    let few = !text.is_empty() && text.len() <= MAX_MOMENT_DIGITS;
    digits && few && (text.len() == 1 || text[0] != b'0')
}

/// The number that digits say.
fn value_of(digits: &[u8]) -> u32
    requires digits { All (λ b. IsTrue (is_digit b)) digits.now }
    requires few { length digits.now ≤ MAX_MOMENT_DIGITS }
    ensures { result ≡ digits_value 10 digits.now }
{
    let mut value: u32 = 0;
    for digit in digits {
        value = value * 10 + u32::from(*digit - b'0');
    }
    value
}

/// The number, if the digits are those of one.
#[tactic(auto, using(crate::proofs::Moments::moment_digits, crate::proofs::Moments::moment_few))]
pub fn moment_in(text: &[u8]) -> Option<u32>
    ensures { result ≡ moment_in text.now }
{
    if is_moment(text) {
        Some(value_of(text))
    } else {
        None
    }
}
