//! That a value is the one that was worked out. What may end the process stands in tests alone, so no library has it.
use std::fmt::Debug;
use std::process::Abort;

/// Ends the test where the values differ, and prints both. It is proved once, where each `assert_eq!` is proved where it stands.
pub fn same<T: PartialEq + Debug + Drop>(rt: &impl Abort, found: T, wanted: T) {
    assert_eq!(rt; found, wanted);
}

/// Ends the test where the texts differ, and prints both and what they are of.
pub fn same_text(rt: &impl Abort, of: &str, found: &str, wanted: &str) {
    assert_eq!(rt; found, wanted, "{of}");
}
