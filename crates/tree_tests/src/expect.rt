//! One comparison, in a function of its own, so that what a test does next is proved without it.

use std::fmt::Debug;
use std::process::Abort;

/// Stops unless the two are equal.
pub(crate) fn expect<T: PartialEq + Debug + Drop>(rt: &impl Abort, found: T, wanted: T) {
    assert_eq!(rt; found, wanted);
}
