//! What several modules use.

use p21_lex::MAX_TEXT;
use p21_parse::{Exchange, ReadErr, read};
use std::alloc::{AllocError, Global};
use std::fmt::Debug;
use std::process::Abort;

// The lines round the instances of a file: 139 bytes before them.
pub const HEAD: &[u8] =
    b"ISO-10303-21;\nHEADER;\nFILE_DESCRIPTION((''),'2;1');\nFILE_NAME('A','',(''),(''),'','','');\nFILE_SCHEMA(('MACHINING_SCHEMA'));\nENDSEC;\nDATA;\n";

pub const TAIL: &[u8] = b"ENDSEC;\nEND-ISO-10303-21;\n";

/// Pieces one behind the other, each so many times.
pub fn joined(alloc: Global, pieces: &[(&[u8], u32)]) -> Result<Vec<u8>, AllocError> {
    let mut text = Vec::new(alloc);
    for (piece, times) in pieces {
        for _ in 0..*times {
            text.extend_from_slice(piece)?;
        }
    }
    Ok(text)
}

/// What a text holds, or why it is refused. It promises nothing, so that its callers are proved without what `read` promises.
pub fn read_text(rt: &impl Abort, alloc: Global, text: &[u8]) -> Result<Exchange, ReadErr> {
    assert!(rt; text.len() <= MAX_TEXT as usize);
    read(alloc, text)
}

/// Stops unless the two are equal. A comparison is proved here once, and a test only calls it.
pub fn expect<T: PartialEq + Debug + Drop>(rt: &impl Abort, found: T, wanted: T) {
    assert_eq!(rt; found, wanted);
}
