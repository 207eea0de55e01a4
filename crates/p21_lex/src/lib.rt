//! The tokens of ISO 10303-21 clear text: where each lies, and the first fault of a text that has none.
//!
//! | module | what is in it | calls |
//! |---|---|---|
//! | lexer | the tokens of a text, whole or from a place on, and the laws that tie them to the grammar of tokens | `tokens`, `tokens_from`, `tokens_fit`, `reading_laws`, `MAX_TEXT` |
//! | slice | the tokens of a text's first slice, and where it ends | `slice_tokens` |
//! | piece | what stands at the front of a text, and whether a text is one token | `next_piece`, `spells`, `Piece` |
//! | token | the kinds of token, and a token's place | `Token`, `TokenKind` |
//! | number | how far a number goes, and what a name's digits say | `name_number`, `MAX_NAME`, `MAX_DIGITS` |
//! | class | classes of bytes | `is_upper`, `is_plain`, `is_hex`, `is_legal` |
//! | scan | where texts, binaries and comments end | none |
//! | error | why a text has no tokens | `LexErr` |
#![tactic(auto)]

mod class;
mod error;
mod lexer;
mod number;
mod piece;
mod scan;
mod slice;
mod token;

pub use class::{is_hex, is_legal, is_plain, is_upper};
pub use error::LexErr;
pub use lexer::{MAX_TEXT, reading_laws, tokens, tokens_fit, tokens_from};
pub use number::{MAX_DIGITS, MAX_NAME, name_number};
pub use piece::{Piece, next_piece, spells};
pub use slice::slice_tokens;
pub use token::{Token, TokenKind};
