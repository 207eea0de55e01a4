//! Classes of bytes (ISO 10303-21, the basic alphabet), and how many bytes of one class stand at the front of a text.

ghost use Rattle.std.specs.Prelude.{◌≡◌, ◌≤◌, length};
ghost use Rattle.std.specs.List.{prefix_len};
ghost use Rattle.p21_lex.specs.Class.{is_digit, is_upper, is_plain, is_word, is_hex, is_legal};

/// Whether a byte is one of `0` to `9`.
pub fn is_digit(byte: u8) -> bool
    ensures { result ≡ is_digit byte }
{
    matches!(byte, b'0'..=b'9')
}

/// Whether a byte is one of `A` to `Z`, or `_`, which the standard counts to the capital letters.
pub fn is_upper(byte: u8) -> bool
    ensures { result ≡ is_upper byte }
{
    matches!(byte, b'A'..=b'Z' | b'_')
}

/// Whether a user's keyword and an enumeration go on with a byte: a capital letter, `_` or a digit.
pub fn is_plain(byte: u8) -> bool
    ensures { result ≡ is_plain byte }
{
    matches!(byte, b'A'..=b'Z' | b'_' | b'0'..=b'9')
}

/// Whether a word goes on with a byte: as above, or with the hyphen of `ISO-10303-21`.
fn is_word(byte: u8) -> bool
    ensures { result ≡ is_word byte }
{
    matches!(byte, b'A'..=b'Z' | b'_' | b'0'..=b'9' | b'-')
}

/// Whether a byte is one of `0` to `9` or `A` to `F`.
pub fn is_hex(byte: u8) -> bool
    ensures { result ≡ is_hex byte }
{
    matches!(byte, b'0'..=b'9' | b'A'..=b'F')
}

/// Whether a text and a comment may hold a byte: any from the space on, a tab, a line feed or a carriage return.
pub fn is_legal(byte: u8) -> bool
    ensures { result ≡ is_legal byte }
{
    byte >= b' ' || matches!(byte, b'\t' | b'\n' | b'\r')
}

pub fn digits_len(bytes: &[u8]) -> usize
    ensures exact { result ≡ prefix_len is_digit bytes.now }
    ensures within { result ≤ length bytes.now }
{
    bytes.iter().take_while(|b| is_digit(**b)).count()
}

pub fn plain_len(bytes: &[u8]) -> usize
    ensures exact { result ≡ prefix_len is_plain bytes.now }
    ensures within { result ≤ length bytes.now }
{
    bytes.iter().take_while(|b| is_plain(**b)).count()
}

pub fn word_len(bytes: &[u8]) -> usize
    ensures exact { result ≡ prefix_len is_word bytes.now }
    ensures within { result ≤ length bytes.now }
{
    bytes.iter().take_while(|b| is_word(**b)).count()
}

pub fn hex_len(bytes: &[u8]) -> usize
    ensures exact { result ≡ prefix_len is_hex bytes.now }
    ensures within { result ≤ length bytes.now }
{
    bytes.iter().take_while(|b| is_hex(**b)).count()
}
