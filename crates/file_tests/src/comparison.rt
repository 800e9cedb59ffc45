//! Comparisons that end a test where values differ. What owns lists hands them to these calls: each assertion is one more
//! way out, on which all that is owned is let go.
use std::fmt::Debug;
use std::process::Abort;

pub fn same<T: PartialEq + Debug>(rt: &impl Abort, given: &T, wanted: &T) {
    assert_eq!(rt; given, wanted);
}

pub fn same_bytes(rt: &impl Abort, given: &[u8], wanted: &[u8]) {
    assert_eq!(rt; given, wanted);
}
