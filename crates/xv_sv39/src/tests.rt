//! A walk over three entries, and what each access makes of its leaf.
ghost use Rattle.std.specs.Prelude.{◌≡◌, ◌<◌, ◌≤◌, ◌==◌, ◌++◌, ◌/◌, ◌^◌, ◌⊎◌, ◌∷◌, [], Some, None};
ghost use Rattle.std.specs.Prelude.{take, length, slice_index, if◌then◌else◌};

use crate::{WalkFault, Words, translate};
use xv_pte::Kind3;

/// The addresses of the three entries on the way of `VA` from the root table 0x80000.
const AT: [u64; 3] = [0x8000_0008, 0x8000_1008, 0x8000_2018];

/// Entry 1 of the root, entry 1 of the next table, entry 3 of the last, and the offset 0x456.
const VA: u64 = 0x4020_3456;

/// A word at each of the three addresses, and the addresses that were read.
#[derive(Drop)]
struct Three {
    words: [u64; 3],
    read: [u64; 3],
    count: usize,
}

impl Words for Three {
    ghost table = { λ s gpa. if gpa == 0x8000_0008 then Some (slice_index s.words 0)
        else if gpa == 0x8000_1008 then Some (slice_index s.words 1)
        else if gpa == 0x8000_2018 then Some (slice_index s.words 2) else None };

    ghost addresses = { λ s. take s.count s.read };

    ghost rule = { λ start s. s.count ≤ 3 };

    fn word(&mut self, gpa: u64) -> Option<u64> {
        self.read[self.count] = gpa;
        self.count += 1;
        if gpa == AT[0] {
            Some(self.words[0])
        } else if gpa == AT[1] {
            Some(self.words[1])
        } else if gpa == AT[2] {
            Some(self.words[2])
        } else {
            None
        }
    }
}

/// What an access to `VA` depends on, beside the pointer of level 1.
#[derive(Clone, Copy)]
struct Row {
    message: &'static str,
    bare: bool,
    root: u64,
    leaf: u64,
    access: Kind3,
    user: bool,
    sum: bool,
    mxr: bool,
    answer: Result<u64, WalkFault>,
    reads: usize,
}

/// The root table in page 0x80000, with MODE Bare or Sv39.
fn satp_of(bare: bool) -> u64
    ensures mode { (result / 2 ^ 60 ≡ 0) ⊎ (result / 2 ^ 60 ≡ 8) }
{
    if bare { 0x80000 } else { 0x8000_0000_0008_0000 }
}

const PAGE: Result<u64, WalkFault> = Err(WalkFault::Page);

const FOUND: Result<u64, WalkFault> = Ok(0x8012_3456);

/// A page of S, in mode S.
const fn of_supervisor(
    message: &'static str,
    low: u64,
    access: Kind3,
    answer: Result<u64, WalkFault>,
) -> Row {
    Row {
        message,
        bare: false,
        root: (0x80001 << 10) | 1,
        leaf: (0x80123 << 10) | low,
        access,
        user: false,
        sum: false,
        mxr: false,
        answer,
        reads: 3,
    }
}

/// Mode S without SUM and MXR.
fn plain_rows() -> [Row; 10] {
    [
        of_supervisor("a load", 0x43, Kind3::Load, FOUND),
        of_supervisor("a store without W", 0x43, Kind3::Store, PAGE),
        of_supervisor("a fetch without X", 0x43, Kind3::Fetch, PAGE),
        of_supervisor("a store", 0xc7, Kind3::Store, FOUND),
        of_supervisor("a store without D", 0x47, Kind3::Store, PAGE),
        of_supervisor("a load without A", 0x87, Kind3::Load, PAGE),
        of_supervisor("a fetch", 0x49, Kind3::Fetch, FOUND),
        of_supervisor("a load with X alone", 0x49, Kind3::Load, PAGE),
        of_supervisor("a pointer at level 0", 0x01, Kind3::Load, PAGE),
        of_supervisor("a page of U", 0xdf, Kind3::Load, PAGE),
    ]
}

/// SUM, MXR, mode U, Bare, and an entry that has no memory.
fn other_rows() -> [Row; 7] {
    [
        Row {
            mxr: true,
            ..of_supervisor("a load with X alone and MXR", 0x49, Kind3::Load, FOUND)
        },
        Row {
            sum: true,
            ..of_supervisor("a page of U with SUM", 0xdf, Kind3::Store, FOUND)
        },
        Row {
            sum: true,
            ..of_supervisor(
                "a fetch from a page of U with SUM",
                0xdf,
                Kind3::Fetch,
                PAGE,
            )
        },
        Row {
            user: true,
            ..of_supervisor("a page of U in U", 0xdf, Kind3::Fetch, FOUND)
        },
        Row {
            user: true,
            ..of_supervisor("a page of S in U", 0xcf, Kind3::Load, PAGE)
        },
        Row {
            bare: true,
            reads: 0,
            ..of_supervisor("Bare", 0, Kind3::Store, Ok(VA))
        },
        Row {
            root: (0x80003 << 10) | 1,
            reads: 2,
            ..of_supervisor(
                "no memory for an entry",
                0,
                Kind3::Load,
                Err(WalkFault::Entry { gpa: 0x8000_3008 }),
            )
        },
    ]
}

/// What the translation of a row answers, and how many entries it reads.
fn translated(row: &Row) -> (Result<u64, WalkFault>, usize) {
    let mut reader = Three {
        words: [row.root, (0x80002 << 10) | 1, row.leaf],
        read: [0; 3],
        count: 0,
    };
    let answer = translate(
        &mut reader,
        satp_of(row.bare),
        VA,
        row.access,
        row.user,
        row.sum,
        row.mxr,
    );
    (answer, reader.count)
}

#[test]
fn verdicts(rt: HostRuntime) {
    for row in plain_rows() {
        assert_eq!(rt;
            translated(&row),
            (row.answer, row.reads),
            "{}",
            row.message
        );
    }
    for row in other_rows() {
        assert_eq!(rt;
            translated(&row),
            (row.answer, row.reads),
            "{}",
            row.message
        );
    }
}
