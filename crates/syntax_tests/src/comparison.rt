//! Comparisons that end a test where values differ. A function that owns lists hands them on here, since each assertion
//! of its own would be one more way out on which they are let go.
use std::fmt::Debug;
use std::process::Abort;

pub fn same<T: PartialEq + Debug>(rt: &impl Abort, given: &T, wanted: &T) {
    assert_eq!(rt; given, wanted);
}

pub fn same_bytes(rt: &impl Abort, given: &[u8], wanted: &[u8]) {
    assert_eq!(rt; given, wanted);
}
