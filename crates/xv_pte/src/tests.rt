mod walks;

use crate::{Kind, kind_of, page_number};

/// Entries by their low bits, over page 0x80123: what each is.
const ROWS: [(&str, u64, Kind); 10] = [
    ("not valid", 0xce, Kind::Broken),
    ("to be written and not read", 0xc5, Kind::Broken),
    ("a pointer", 0x01, Kind::Pointer(0x80123)),
    ("a pointer with G", 0x21, Kind::Pointer(0x80123)),
    ("a pointer with A", 0x41, Kind::Broken),
    ("a pointer with D", 0x81, Kind::Broken),
    ("a pointer with U", 0x11, Kind::Broken),
    ("to be read", 0x43, Kind::Leaf),
    ("to be executed alone", 0x49, Kind::Leaf),
    ("with nothing of A and D", 0x0f, Kind::Leaf),
];

#[test]
fn entries(rt: HostRuntime) {
    for (message, low, kind) in ROWS {
        let entry = (0x80123 << 10) | low;
        assert_eq!(rt; kind_of(entry), kind, "{message}");
        assert_eq!(rt; page_number(entry), 0x80123, "{message}");
        assert_eq!(rt; kind_of(entry | (1 << 54)), Kind::Broken, "{message}");
        assert_eq!(rt; kind_of(entry | (1 << 63)), Kind::Broken, "{message}");
    }
}
