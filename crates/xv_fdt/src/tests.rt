//! Files of each kind of fault, the least tree cut at each byte, and the blob of a real tree.
ghost use Rattle.std.specs.Prelude.{◌≤◌};

mod payload;

use super::*;
use byteorder::{BigEndian, ByteOrder};
use payload::{BLOB, NODES, Props};
use std::alloc::Global;
use std::process::Abort;
use std::test::Fail;

/// The fault of a kind at an offset.
macro_rules! at {
    ($kind:ident, $offset:literal) => {
        Some(FdtFault::At {
            kind: FdtKind::$kind,
            offset: $offset,
        })
    };
}

/// A row of a file, and its fault: the header as dtc lays it out, of a structure and strings of so
/// many bytes; the reservations' end; the structure, and then the strings.
macro_rules! blob {
    ($size:literal, $strings_size:literal, [$($word:expr),*], $fault:expr) => {
        (
            &[
                MAGIC, 56 + $size + $strings_size, 56, 56 + $size, 40, 17, 16, 0, $strings_size,
                $size, 0, 0, 0, 0, $($word),*
            ],
            0,
            MAGIC,
            $fault,
        )
    };
}

/// The first word of a file (5.2).
const MAGIC: u32 = 0xd00dfeed;

/// The word that is the name of one letter, and the 0 and the padding behind it.
const A: u32 = 0x61000000;

const B: u32 = 0x62000000;

/// The most words of a file below.
const MOST: usize = 64;

/// The file of the least tree: a root without a name.
const LEAST: [u32; 18] = [
    MAGIC, 72, 56, 72, 40, 17, 16, 0, 0, 16, 0, 0, 0, 0, 1, 0, 2, 9,
];

/// A file, a word's number and the word that is put there, and the fault.
type Row = (&'static [u32], usize, u32, Option<FdtFault>);

const FILES: [Row; 55] = [
    (&LEAST, 0, MAGIC, None),
    // another token in the place of each
    blob!(16, 0, [9, 0, 2, 9], at!(Unbalanced, 56)),
    blob!(16, 0, [2, 0, 2, 9], at!(Unbalanced, 56)),
    blob!(16, 0, [5, 0, 2, 9], at!(BadToken, 56)),
    blob!(16, 0, [1, 0, 9, 9], at!(Unbalanced, 64)),
    blob!(16, 0, [1, 0, 4, 9], at!(Unbalanced, 68)),
    blob!(16, 0, [1, 0, 5, 9], at!(BadToken, 64)),
    blob!(16, 0, [1, 0, 3, 100], at!(Short, 64)),
    blob!(16, 0, [1, 0, 2, 1], at!(Unbalanced, 68)),
    blob!(16, 0, [1, 0, 2, 2], at!(Unbalanced, 68)),
    blob!(16, 0, [1, 0, 2, 3], at!(Unbalanced, 68)),
    blob!(16, 0, [1, 0, 2, 7], at!(BadToken, 68)),
    // no-operations, and what follows the end
    blob!(20, 0, [4, 1, 0, 2, 9], None),
    blob!(36, 0, [4, 4, 1, 0, 4, 2, 4, 9, 77], None),
    // nodes: a name of the root, none of a child, one with a `/`, twins, and a twin in another node
    blob!(16, 0, [1, A, 2, 9], at!(BadName, 56)),
    blob!(28, 0, [1, 0, 1, 0, 2, 2, 9], at!(BadName, 64)),
    blob!(28, 0, [1, 0, 1, 0x2f000000, 2, 2, 9], at!(BadName, 64)),
    blob!(40, 0, [1, 0, 1, A, 2, 1, A, 2, 2, 9], at!(BadName, 76)),
    blob!(52, 0, [1, 0, 1, A, 1, A, 2, 2, 1, B, 2, 2, 9], None),
    blob!(16, 0, [1, 0, 1, 0x61616161], at!(Short, 64)),
    // properties: values of 0 and 5 bytes, one in no node, one behind a child, a value that is cut
    blob!(28, 2, [1, 0, 3, 0, 0, 2, 9, 0x61000000], None),
    blob!(36, 2, [1, 0, 3, 5, 0, 1, 2, 2, 9, 0x61000000], None),
    blob!(
        28,
        2,
        [3, 0, 0, 1, 0, 2, 9, 0x61000000],
        at!(Unbalanced, 56)
    ),
    blob!(
        40,
        2,
        [1, 0, 1, A, 2, 3, 0, 0, 2, 9, 0x61000000],
        at!(BadToken, 76)
    ),
    blob!(28, 2, [1, 0, 3, 9, 0, 2, 9, 0x61000000], at!(Short, 64)),
    // names of properties: at the strings' end, past it, cut, empty, twins, twins in two nodes
    blob!(28, 5, [1, 0, 3, 0, 3, 2, 9, 0x61620063, 0], None),
    blob!(28, 2, [1, 0, 3, 0, 2, 2, 9, 0x61000000], at!(BadOffset, 64)),
    blob!(28, 1, [1, 0, 3, 0, 0, 2, 9, 0x61000000], at!(BadOffset, 64)),
    blob!(28, 2, [1, 0, 3, 0, 1, 2, 9, 0x61000000], at!(BadName, 64)),
    blob!(
        40,
        2,
        [1, 0, 3, 0, 0, 3, 0, 0, 2, 9, 0x61000000],
        at!(BadName, 76)
    ),
    blob!(
        52,
        2,
        [1, 0, 3, 0, 0, 1, A, 3, 0, 0, 2, 2, 9, 0x61000000],
        None
    ),
    // 16 nodes in one another, and 17
    blob!(
        196,
        0,
        [
            1, 0, 1, A, 1, A, 1, A, 1, A, 1, A, 1, A, 1, A, 1, A, 1, A, 1, A, 1, A, 1, A, 1, A, 1,
            A, 1, A, 2, 2, 2, 2, 2, 2, 2, 2, 2, 2, 2, 2, 2, 2, 2, 2, 9
        ],
        None
    ),
    blob!(
        136,
        0,
        [
            1, 0, 1, A, 1, A, 1, A, 1, A, 1, A, 1, A, 1, A, 1, A, 1, A, 1, A, 1, A, 1, A, 1, A, 1,
            A, 1, A, 1, A
        ],
        at!(TooDeep, 184)
    ),
    // a word of the least tree's header in another's place
    (&LEAST, 0, 0xd00dfeee, at!(BadMagic, 0)),
    (&LEAST, 1, 73, at!(Short, 4)),
    (&LEAST, 2, 60, at!(BadOffset, 8)),
    (&LEAST, 2, 54, at!(BadOffset, 8)),
    (&LEAST, 2, 36, at!(BadOffset, 8)),
    (&LEAST, 3, 73, at!(BadOffset, 12)),
    (&LEAST, 4, 44, at!(BadOffset, 16)),
    (&LEAST, 4, 48, at!(BadOffset, 16)),
    (&LEAST, 4, 64, at!(BadOffset, 16)),
    (&LEAST, 4, 80, at!(BadOffset, 16)),
    (&LEAST, 4, 0xfffffff8, at!(BadOffset, 16)),
    (&LEAST, 5, 16, at!(BadVersion, 20)),
    (&LEAST, 5, 18, None),
    (&LEAST, 6, 17, None),
    (&LEAST, 6, 18, at!(BadVersion, 24)),
    (&LEAST, 7, 5, None),
    (&LEAST, 8, 1, at!(BadOffset, 12)),
    (&LEAST, 9, 14, at!(BadOffset, 36)),
    (&LEAST, 9, 12, at!(Short, 68)),
    (&LEAST, 9, 8, at!(Short, 64)),
    (&LEAST, 9, 4, at!(Short, 56)),
    (&LEAST, 9, 0, at!(Short, 56)),
];

/// The fault of the first `len` bytes of the file of these words, behind which 0 stands.
fn fault_of(alloc: Global, words: &[u32; MOST], len: usize) -> Option<FdtFault>
    requires { len ≤ 256 }
{
    let mut bytes = [0; 4 * MOST];
    BigEndian::write_u32_into(words, &mut bytes);
    read(alloc, &bytes[..len]).err()
}

// The rows are a parameter: a proof that sees the words of all of them takes far longer.
fn check_files(rt: &impl Abort, alloc: Global, rows: &[Row]) {
    for (words, place, word, fault) in rows {
        assert!(rt; words.len() <= MOST && *place < MOST);
        let mut file = [0; MOST];
        file[..words.len()].copy_from_slice(words);
        file[*place] = *word;
        let found = fault_of(alloc, &file, 4 * words.len());
        assert_eq!(rt; found, *fault, "{words:?} {place} {word}");
    }
}

#[test]
fn structures_and_headers(rt: HostRuntime) {
    check_files(&rt, rt.alloc(), &FILES);
}

// The first `len` bytes of the least tree, the whole with that totalsize, and both.
#[test]
fn least_tree_cut_anywhere(rt: HostRuntime) {
    let mut whole = [0; MOST];
    whole[..18].copy_from_slice(&LEAST);
    for len in 0..72 {
        let mut lowered = whole;
        lowered[1] = len as u32;
        let found = (
            fault_of(rt.alloc(), &whole, len),
            fault_of(rt.alloc(), &lowered, 72),
            fault_of(rt.alloc(), &lowered, len),
        );
        let wanted = if len < 40 {
            let cut = Some(FdtFault::At {
                kind: FdtKind::Short,
                offset: len as u32,
            });
            (cut, at!(Short, 4), cut)
        } else {
            (at!(Short, 4), at!(BadOffset, 8), at!(BadOffset, 8))
        };
        assert_eq!(rt; found, wanted, "{len}");
    }
    assert_eq!(rt; fault_of(rt.alloc(), &whole, 73), None);
}

// Byte by byte, since a proof about `==` of slices takes longer.
fn is_same(a: &[u8], b: &[u8]) -> bool {
    if a.len() != b.len() {
        return false;
    }
    for at in 0..a.len() {
        if a[at] != b[at] {
            return false;
        }
    }
    true
}

fn has_props(props: &[Prop], rows: Props) -> bool {
    if props.len() != rows.len() {
        return false;
    }
    for (prop, (name, value)) in props.iter().zip(rows) {
        let is_named = NodeName::of(name.as_bytes()) == Some(prop.name);
        if !is_named || !is_same(&prop.value, value) {
            return false;
        }
    }
    true
}

fn has_nodes(nodes: &[Node], rows: &[(&str, u32, u8, Props)]) -> bool {
    if nodes.len() != rows.len() {
        return false;
    }
    for (node, (name, parent, depth, props)) in nodes.iter().zip(rows) {
        let is_there = node.parent == *parent && node.depth == *depth;
        let is_named = NodeName::of(name.as_bytes()) == Some(node.name);
        if !is_there || !is_named || !has_props(&node.props, props) {
            return false;
        }
    }
    true
}

#[test]
fn realistic_tree_read_and_written(rt: HostRuntime) -> Result<(), Fail> {
    let Ok(tree) = read(rt.alloc(), BLOB) else {
        return Err(Fail::from("the blob of dtc"));
    };
    assert!(rt; has_nodes(&tree.nodes, &NODES));
    let Ok(bytes) = write(rt.alloc(), &tree) else {
        return Err(Fail::from("memory"));
    };
    let Ok(again) = read(rt.alloc(), &bytes) else {
        return Err(Fail::from("the written file"));
    };
    assert!(rt; has_nodes(&again.nodes, &NODES));
    Ok(())
}
