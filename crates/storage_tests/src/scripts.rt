use script::call::Expected;
use script::scripts::{ScriptError, parse_script};
use std::test::Fail;

// The line that is not understood, and what was expected there.
fn refused(rt: &HostRuntime, text: &[u8]) -> Result<(u64, Expected), Fail> {
    match parse_script(rt.alloc(), text) {
        Err(ScriptError::NotUnderstood { line, expected }) => Ok((line, expected)),
        _ => Err(Fail::new("it was understood")),
    }
}

#[test]
fn garbage(rt: HostRuntime) -> Result<(), Fail> {
    assert_eq!(rt; refused(&rt, b"\xff\x00")?, (1, Expected::Keyword));
    assert_eq!(rt;
        refused(&rt, b"read 1\n\n  raed 2\n")?,
        (3, Expected::Keyword)
    );
    assert_eq!(rt; refused(&rt, b"# only this\nread")?, (2, Expected::Number));
    assert_eq!(rt; refused(&rt, b"read 1 2")?, (1, Expected::End));
    assert_eq!(rt; refused(&rt, b"read -1")?, (1, Expected::Number));
    assert_eq!(rt; refused(&rt, b"read +1")?, (1, Expected::Number));
    Ok(())
}

#[test]
fn numbers(rt: HostRuntime) -> Result<(), Fail> {
    assert!(rt; parse_script(rt.alloc(), b"read 18446744073709551615").is_ok());
    assert!(rt; parse_script(rt.alloc(), b"read 0000000000000000000000000001").is_ok());
    assert_eq!(rt;
        refused(&rt, b"read 18446744073709551616")?,
        (1, Expected::Number)
    );
    assert_eq!(rt;
        refused(&rt, b"read 99999999999999999999999")?,
        (1, Expected::Number)
    );
    assert_eq!(rt; refused(&rt, b"value 1 256")?, (1, Expected::Segment));
    Ok(())
}

#[test]
fn storages(rt: HostRuntime) -> Result<(), Fail> {
    assert!(rt; parse_script(rt.alloc(), b"storage inner window 1 2 swapped window 3 4").is_ok());
    assert_eq!(rt;
        refused(&rt, b"length\nstorage inner")?,
        (2, Expected::StorageFirst)
    );
    assert_eq!(rt;
        refused(&rt, b"storage inner\ncode 2")?,
        (2, Expected::CodeNeedsMemory)
    );
    assert_eq!(rt; refused(&rt, b"storage words")?, (1, Expected::Number));
    assert_eq!(rt; refused(&rt, b"storage paper 3")?, (1, Expected::Backing));
    assert_eq!(rt;
        refused(&rt, b"storage inner swapped swapped")?,
        (1, Expected::Layer)
    );
    assert_eq!(rt;
        refused(&rt, b"set_condition broken")?,
        (1, Expected::Stage)
    );
    Ok(())
}
