ghost use Rattle.std.specs.Prelude.{◌≡◌, ◌↔◌, IsTrue};

use super::*;
use std::collections::HashMap;
use std::test::Fail;

const NUMBERS: [(&str, Option<u64>); 18] = [
    ("0", Some(0)),
    ("007", Some(7)),
    ("18446744073709551615", Some(u64::MAX)),
    ("18446744073709551616", None),
    ("00000000000000000009", Some(9)),
    ("000000000000000000009", None),
    ("", None),
    ("12a", None),
    ("+1", None),
    ("0x", None),
    ("0x0", Some(0)),
    ("0xAbCdeF", Some(0xABCDEF)),
    ("0xffffffffffffffff", Some(u64::MAX)),
    ("0x00000000000000001", None),
    ("0X1", None),
    ("0x+1", None),
    ("0xg", None),
    ("x1", None),
];

#[test]
fn numbers_at_their_edges(rt: HostRuntime) -> Result<(), Fail> {
    for (text, value) in NUMBERS {
        assert_eq!(rt; number_of(text.as_bytes()), value, "{text}");
    }
    Ok(())
}

const NAMES: [(&str, bool, bool, bool); 12] = [
    ("", false, false, false),
    ("a", true, true, true),
    ("Z9_-", true, true, true),
    ("9a", false, true, true),
    ("_a", false, true, true),
    ("-a", false, true, true),
    ("a.b", false, true, true),
    ("a/b", false, false, true),
    ("uart@10000000", false, true, true),
    ("a b", false, false, false),
    ("!~", false, true, true),
    ("a\x7F", false, false, false),
];

// a length, and whether it is one of a guest's, a node's and a file's name
const LENGTHS: [(usize, bool, bool, bool); 7] = [
    (1, true, true, true),
    (31, true, true, true),
    (32, false, true, true),
    (63, false, true, true),
    (64, false, false, true),
    (255, false, false, true),
    (256, false, false, false),
];

#[test]
fn names_at_their_edges(rt: HostRuntime) -> Result<(), Fail> {
    for (text, guest, dev, file) in NAMES {
        let bytes = text.as_bytes();
        assert_eq!(rt; name_of(bytes).is_some(), guest, "{text}");
        assert_eq!(rt; dev_name_of(bytes).is_some(), dev, "{text}");
        assert_eq!(rt; file_name_of(bytes).is_some(), file, "{text}");
    }
    let letters = [b'a'; 256];
    for (len, guest, dev, file) in LENGTHS {
        assert!(rt; len <= 256);
        let bytes = &letters[..len];
        assert_eq!(rt; name_of(bytes).is_some(), guest, "{len}");
        assert_eq!(rt; dev_name_of(bytes).is_some(), dev, "{len}");
        assert_eq!(rt; file_name_of(bytes).is_some(), file, "{len}");
    }
    Ok(())
}

#[test]
fn names_show_their_bytes_and_are_keys(rt: HostRuntime) -> Result<(), Fail> {
    let name = name_of(b"guest-0").ok_or("a guest's name")?;
    assert_eq!(rt; name.bytes(), b"guest-0".as_slice());
    let dev = dev_name_of(b"uart@10000000").ok_or("a node's name")?;
    assert_eq!(rt; dev.bytes(), b"uart@10000000".as_slice());
    let file = file_name_of(b"images/one.bin").ok_or("a file's name")?;
    assert_eq!(rt; file.bytes(), b"images/one.bin".as_slice());
    assert_eq!(rt; file.text(), "images/one.bin");

    let mut keys = HashMap::new(rt.alloc());
    keys.insert(name, GuestKey(3))?;
    let again = name_of(b"guest-0").ok_or("a guest's name")?;
    let other = name_of(b"guest-00").ok_or("a guest's name")?;
    assert_eq!(rt; keys.get(&again).copied(), Some(GuestKey(3)));
    assert_eq!(rt; keys.get(&other).copied(), None);
    Ok(())
}

const PAIRS: [(&str, Option<&[u8]>); 7] = [
    ("", None),
    ("0", None),
    ("00", Some(&[0])),
    ("fFa5", Some(&[0xFF, 0xA5])),
    ("fFa", None),
    ("0g", None),
    ("0x00", None),
];

#[test]
fn pairs_of_digits(rt: HostRuntime) -> Result<(), Fail> {
    for (text, value) in PAIRS {
        let read = hex_pairs_of(rt.alloc(), text.as_bytes()).map_err(|_| "memory")?;
        let found = match &read {
            Some(Bytes(bytes)) => Some(bytes.as_slice()),
            None => None,
        };
        assert!(rt; found == value, "{text}");
    }
    Ok(())
}

// Equality of two names is equality of their bytes.
fn same_guest(a: &GuestName, b: &GuestName) -> bool
    ensures { IsTrue result ↔ (a.now ≡ b.now) }
{
    a == b
}

fn same_file(a: &FileName, b: &FileName) -> bool
    ensures { IsTrue result ↔ (a.now ≡ b.now) }
{
    a == b
}

#[test]
fn equality_is_of_bytes(rt: HostRuntime) -> Result<(), Fail> {
    let name = name_of(b"a").ok_or("a guest's name")?;
    assert!(rt; same_guest(&name, &name));
    let file = file_name_of(b"a").ok_or("a file's name")?;
    assert!(rt; same_file(&file, &file));
    Ok(())
}
