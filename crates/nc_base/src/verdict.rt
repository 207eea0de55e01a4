//! What became of an edit.

/// What became of an operator's edit: accepted, or refused by a rule.
#[derive(Clone, Copy, Debug, PartialEq, Eq)]
pub enum Verdict {
    Accepted,
    /// The number of the rule that refused it, as the log writes it behind `J`, and the rule's two numbers.
    Refused { code: u8, a: u32, b: u32 },
}
