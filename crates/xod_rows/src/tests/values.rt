//! Values by the bytes of their keys, texts, and lists of bytes and of ids.
use super::{id, parted, text};
use std::alloc::Global;
use std::test::Fail;
use xod_base::{Bytes, IdList, Memory, Text, Value, is_utf8, push_value};
use xod_words::read_value;

/// Values in their order, and behind a bar the bytes of their keys.
const VALUES: &str = r#"false | 0100
true | 0101
-9223372036854775808 | 020000000000000000
-1 | 027fffffffffffffff
0 | 028000000000000000
3 | 028000000000000003
9223372036854775807 | 02ffffffffffffffff
"" | 0300
" " | 032000
"@AZ[`az{" | 0340617a5b60617a7b00
"A\\\"" | 03615c2200
"ÜNAL" | 03c39c6e616c00
"#;

/// Puts bytes at the end, two digits for each.
fn push_digits(alloc: Global, out: &mut Bytes, bytes: &[u8]) -> Result<(), Memory> {
    for byte in bytes {
        let digits = format!(in alloc; "{byte:02x}")?;
        out.extend(digits.as_bytes())?;
    }
    Ok(())
}

/// The value of a word as it is printed, and behind a bar its key.
fn told(alloc: Global, word: &str) -> Result<Bytes, Fail> {
    let value = read_value(alloc, word.as_bytes())?;
    let key = value.key_bytes(alloc)?;
    let mut out = Bytes::new(alloc);
    push_value(alloc, &mut out, &value)?;
    out.extend(b" | ")?;
    push_digits(alloc, &mut out, key.as_slice())?;
    Ok(out)
}

#[test]
fn values_have_these_keys_and_are_printed_as_they_are_read(rt: HostRuntime) -> Result<(), Fail> {
    let mut before: &[u8] = b"";
    for line in VALUES.lines() {
        let (word, key) = parted(line)?;
        let told = told(rt.alloc(), word)?;
        assert!(rt; told.as_slice() == line.as_bytes(), "{line}");
        assert!(rt; before < key.as_bytes(), "{line}");
        before = key.as_bytes();
    }
    Ok(())
}

#[test]
fn a_text_is_utf8_without_control_characters(rt: HostRuntime) -> Result<(), Fail> {
    for (bytes, is_text) in [
        (b"".as_slice(), true),
        (b"a b".as_slice(), true),
        (b"\xc2\x80".as_slice(), true),
        (b"\x1f".as_slice(), false),
        (b"a\tb".as_slice(), false),
        (b"\x7f".as_slice(), false),
        (b"\xff".as_slice(), false),
        (b"\xc3".as_slice(), false),
    ] {
        let found = Text::from_bytes(rt.alloc(), bytes)?;
        assert_eq!(rt; found.is_some(), is_text, "at {bytes:?}");
    }
    assert!(rt; is_utf8(b"\x1f"));
    assert!(rt; !is_utf8(b"\xff"));
    Ok(())
}

#[test]
fn texts_and_values_that_differ_in_case_are_not_the_same(rt: HostRuntime) -> Result<(), Fail> {
    let alloc = rt.alloc();
    let large = text(alloc, b"Ab")?;
    let small = text(alloc, b"ab")?;
    assert!(rt; !large.same(&small));
    assert_eq!(rt; large.len(), 2);
    let copy = large.try_clone(alloc)?;
    assert_eq!(rt; copy.as_bytes(), b"Ab".as_slice());
    let value = Value::Text(large);
    assert!(rt; !value.same(&Value::Text(small)));
    assert!(rt; value.try_clone(alloc)?.same(&value));
    assert!(rt; !Value::Flag(true).same(&Value::Int(1)));
    Ok(())
}

#[test]
fn a_list_of_bytes_grows_at_its_end(rt: HostRuntime) -> Result<(), Fail> {
    let mut list = Bytes::new(rt.alloc());
    assert!(rt; list.is_empty());
    list.push(1)?;
    list.extend(&[2, 3])?;
    let more = [4].to_vec(rt.alloc())?;
    list.append(Bytes::from_vec(more))?;
    assert_eq!(rt; list.len(), 4);
    let copy = list.try_clone(rt.alloc())?;
    assert!(rt; copy.same(&list));
    let items = list.into_vec();
    assert_eq!(rt; items.as_slice(), [1, 2, 3, 4].as_slice());
    Ok(())
}

#[test]
fn a_list_of_ids_is_a_list_of_numbers(rt: HostRuntime) -> Result<(), Fail> {
    let mut ids = IdList::new(rt.alloc());
    assert!(rt; ids.is_empty());
    ids.push(id(1, 0))?;
    ids.push(id(0, u32::MAX))?;
    let numbers = [4_294_967_298].to_vec(rt.alloc())?;
    let more = IdList::from_numbers(numbers);
    assert_eq!(rt; more.get(0), Some(id(1, 2)));
    assert_eq!(rt; more.get(1), None);
    ids.append(&more)?;
    assert_eq!(rt; ids.len(), 3);
    assert_eq!(rt;
        ids.as_numbers(),
        [4_294_967_296, 4_294_967_295, 4_294_967_298].as_slice()
    );
    let copy = ids.try_clone(rt.alloc())?;
    assert!(rt; copy.same(&ids));
    assert!(rt; !copy.same(&more));
    Ok(())
}
