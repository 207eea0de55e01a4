//! Tables as texts: a row to a line, with `|` between its parts.

use std::alloc::{AllocError, Global};

/// The first part of a row, and what follows it.
pub fn row(line: &str) -> (&str, &str) {
    line.split_once('|').unwrap_or((line, ""))
}

/// The number that decimal digits are. Those of the tables fit.
pub fn number(digits: &str) -> u32 {
    let mut value: u32 = 0;
    for digit in digits.bytes() {
        value = value
            .wrapping_mul(10)
            .wrapping_add(u32::from(digit.wrapping_sub(b'0')));
    }
    value
}

/// The bytes of a text of a row: each character is the byte of its number, and `¶` a line feed.
pub fn bytes_of(alloc: Global, text: &str) -> Result<Vec<u8>, AllocError> {
    let mut bytes = Vec::new(alloc);
    for c in text.chars() {
        bytes.push(match c {
            '¶' => b'\n',
            _ => u8::try_from(u32::from(c)).unwrap_or(b'?'),
        })?;
    }
    Ok(bytes)
}
