use std::fmt::Debug;
use std::process::Abort;

// Stops unless the two are equal, and names both. A comparison is proved here once, and a test only calls it.
pub(crate) fn expect<T: PartialEq + Debug + Drop>(rt: &impl Abort, left: T, right: T) {
    assert_eq!(rt; left, right);
}
