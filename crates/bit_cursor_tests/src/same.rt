use std::fmt::Debug;
use std::process::Abort;

/// `assert_eq!` as a call: in a test with many of them each way out with what it prints is to be proved.
pub(crate) fn assert_same<T: Debug + PartialEq + Drop>(rt: &impl Abort, found: T, expected: T) {
    assert_eq!(rt; found, expected);
}
