//! Assertions of tests. An assertion is proved wherever it is written, which takes seconds; a call of one of these functions
//! takes hardly any time.

use std::fmt::Debug;
use std::process::Abort;

/// Fails unless these are the same.
pub fn same<T: PartialEq + Debug>(rt: &impl Abort, found: &T, wanted: &T) {
    assert_eq!(rt; found, wanted);
}

/// The same, and shows the case in which it fails.
pub fn same_in<T: PartialEq + Debug, C: Debug>(rt: &impl Abort, found: &T, wanted: &T, case: &C) {
    assert_eq!(rt; found, wanted, "{case:?}");
}

/// Fails unless this holds.
pub fn holds(rt: &impl Abort, condition: bool) {
    assert!(rt; condition);
}

/// The same, and shows the case in which it fails.
pub fn holds_in<C: Debug>(rt: &impl Abort, condition: bool, case: &C) {
    assert!(rt; condition, "{case:?}");
}
