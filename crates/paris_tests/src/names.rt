//! Tests of names and of the texts of faults.

use paris_names::{Fault, Name};
use std::str::FromStr;
use std::test::*;

#[test]
fn names_are_one_to_sixteen_bytes(rt: HostRuntime) {
    const CASES: &[(&'static [u8], bool)] = &[
        (b"a", true),
        (b"Some-name_of-16b", true),
        (b"", false),
        (b"none", false),
        (b"9a", false),
        (b"a.b", false),
        (b"a-name-of-17-byte", false),
    ];
    for (text, wanted) in CASES {
        assert!(rt; Name::new(*text).is_some() == *wanted);
        assert!(rt; Name::try_from(*text).is_ok() == *wanted);
    }
    assert!(rt; Name::from_str("a-1").is_ok() && Name::from_str("a 1").is_err());
}

#[test]
fn a_fault_has_its_text(rt: HostRuntime) -> Result<(), Fail> {
    let text = format!(in rt.alloc(); "{}", Fault::TooWide(3))?;
    assert_eq!(rt;
        text.as_str(),
        "the value for processor 3 does not fit the width"
    );
    assert_eq!(rt; Fault::TooWide(3).number(), 9);
    Ok(())
}
