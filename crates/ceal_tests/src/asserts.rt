// What the tests assert by.

ghost use Rattle.std.specs.Prelude.{IsTrue};

use std::fmt::Debug;
use std::process::Abort;

/// Ends the test and shows both values, unless they are equal.
pub(crate) fn equal<R: Abort, T: Copy + PartialEq + Debug>(rt: &R, found: T, wanted: T) {
    assert_eq!(rt; found, wanted);
}

/// Ends the test and shows both lists, unless they are equal.
pub fn same_items<R: Abort, T: PartialEq + Debug>(rt: &R, found: &[T], wanted: &[T]) {
    assert_eq!(rt; found, wanted);
}

/// Ends the test unless this is so.
pub(crate) fn holds<R: Abort>(rt: &R, fact: bool)
    ensures { IsTrue fact }
{
    assert!(rt; fact);
}
