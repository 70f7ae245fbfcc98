// The fields of a line and the words of a list, where memory suffices.
use cases::{fields, list};
use std::test::Fail;

#[test]
fn fields_of_a_line(rt: HostRuntime) -> Result<(), Fail> {
    let Ok(found) = fields(rt.alloc(), b"a\tbc") else {
        panic!(rt; "no fields");
    };
    assert!(rt; found.len() == 2);
    assert!(rt; found[0] == b"a".as_slice() && found[1] == b"bc".as_slice());
    Ok(())
}

#[test]
fn numbers_of_a_list(rt: HostRuntime) -> Result<(), Fail> {
    let Ok(numbers) = list::<u8>(rt.alloc(), b"1,20,255") else {
        panic!(rt; "no list");
    };
    assert!(rt; numbers.as_slice() == [1, 20, 255].as_slice());
    Ok(())
}

#[test]
fn runs_of_a_list(rt: HostRuntime) -> Result<(), Fail> {
    let Ok(runs) = list::<Vec<u8>>(rt.alloc(), b"00ff,-") else {
        panic!(rt; "no list");
    };
    assert!(rt; runs.len() == 2);
    assert!(rt; runs[0].as_slice() == b"\x00\xff".as_slice() && runs[1].is_empty());
    Ok(())
}
