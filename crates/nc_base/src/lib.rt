//! What every layer of stepnc speaks in: numbers of instances, texts, lists, lines, verdicts, and counters of steps.
//!
//! | module | what is in it | calls |
//! |---|---|---|
//! | numbers | numbers of instances, their greatest, lists of them; the greatest value | `Number`, `MAX_NUMBER`, `NumberList`, `MAX_THOUSANDTHS` |
//! | distinct | whether no number stands twice | `are_distinct` |
//! | items | a list of items of any type | `ItemList` |
//! | text | bytes in a row, short ones without memory of their own | `NcText` |
//! | lines | a line of text on the stack | `Line`, `put`, `put_number` |
//! | memory | out of memory | `NoMemory` |
//! | steps | a counter that costs nothing | `Steps` |
//! | verdict | what became of an edit | `Verdict` |
//!
//! Its tests stand in the crate base_tests.
#![tactic(auto)]

mod distinct;
mod items;
mod lines;
mod memory;
mod numbers;
mod steps;
mod text;
mod verdict;

pub use distinct::are_distinct;
pub use items::ItemList;
pub use lines::{Line, put, put_number};
pub use memory::NoMemory;
pub use numbers::{MAX_NUMBER, MAX_THOUSANDTHS, Number, NumberList};
pub use steps::Steps;
pub use text::NcText;
pub use verdict::Verdict;
