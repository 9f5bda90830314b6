//! Guests of trees: what each does, in runs of the program, and what becomes of a tree that a line
//! names.
use super::rows::{FileOf, PLAIN, Row};
use super::trees::{
    Base, Fill, NO_ALIAS, NO_PART, NO_ROM, NO_VCPU1, NO_VIRTUAL, ROM, TARGET, UART,
};

const ROM_TREE: FileOf = FileOf {
    name: b"t",
    base: Base::Payload,
    len: 1171,
    fills: &[NO_VCPU1, NO_VIRTUAL, NO_ALIAS, NO_PART],
};

const ALIAS_TREE: FileOf = FileOf {
    name: b"t",
    base: Base::Payload,
    len: 1171,
    fills: &[NO_VCPU1, NO_VIRTUAL, NO_PART],
};

const DEVICE_TREE: FileOf = FileOf {
    name: b"t",
    base: Base::Payload,
    len: 1171,
    fills: &[NO_VCPU1, NO_ALIAS, NO_PART],
};

pub static TREE_ROWS: [Row; 4] = [
    Row {
        message: "a store into a ROM",
        script: b"guest create a t
guest poke a 0x80000000 970200009382020173905210233000006f000000
guest audit a
guest kick a
run 1
guest regs a 0
",
        files: &[ROM_TREE],
        transcript: &[
            b"created a vcpus 1 regions 2 frames 2071
poked a 20
audit a 2064
kicked a
ran 1 idle 0 now 100
regs a 0 started S pc=0000000080000010
x0=0000000000000000 x1=0000000000000000 x2=0000000000000000 x3=0000000000000000
x4=0000000000000000 x5=0000000080000010 x6=0000000000000000 x7=0000000000000000
x8=0000000000000000 x9=0000000000000000 x10=0000000000000000 x11=0000000000000000
x12=0000000000000000 x13=0000000000000000 x14=0000000000000000 x15=0000000000000000
x16=0000000000000000 x17=0000000000000000 x18=0000000000000000 x19=0000000000000000
x20=0000000000000000 x21=0000000000000000 x22=0000000000000000 x23=0000000000000000
x24=0000000000000000 x25=0000000000000000 x26=0000000000000000 x27=0000000000000000
x28=0000000000000000 x29=0000000000000000 x30=0000000000000000 x31=0000000000000000
sstatus=0000000200000100 sie=0000000000000000 ssip=0000000000000000 stvec=0000000080000010
sscratch=0000000000000000 sepc=000000008000000c scause=0000000000000007 stval=0000000000000000
satp=0000000000000000 scounteren=0000000000000000 senvcfg=0000000000000000 timer=ffffffffffffffff
",
        ],
        ..PLAIN
    },
    Row {
        message: "an alias of memory, and a reservation under both addresses",
        script: b"guest create a t
guest poke a 0x90000000 0123456789abcdef
guest mem a 0x80001000 8
guest audit a
guest poke a 0x80000000 97120000170300101303c3ffafb302102f3453181304140023b882006f000000
guest kick a
run 1
guest mem a 0x80001000 24
",
        files: &[ALIAS_TREE],
        transcript: &[
            b"created a vcpus 1 regions 3 frames 2072
poked a 8
mem a 0000000080001000 0123456789abcdef
audit a 2066
poked a 32
kicked a
ran 1 idle 0 now 100
mem a 0000000080001000 001000800000000000000000000000000100000000000000
",
        ],
        ..PLAIN
    },
    Row {
        message: "a guest with its devices, which ends by its finisher",
        script: b"guest create a t
guest poke a 0x80000000 37031000b753000093835355232073006f000000
guest kick a
run 1
guest list
vserial list
vserial input a/uart@10000000 0a5cff
vserial input a/uart 00
vserial input b/uart@10000000 00
",
        files: &[DEVICE_TREE],
        transcript: &[
            b"created a vcpus 1 regions 5 frames 2071
poked a 20
kicked a
ran 1 idle 0 now 100
guests 1
a halted pass vcpus 1
vserial 1
a/uart@10000000
input a/uart@10000000 3
refused device
refused guest
",
        ],
        ..PLAIN
    },
    Row {
        message: "a guest that sends H, which is shown once",
        script: b"guest create a t
guest poke a 0x80000000 3703001093038004230073006f000000
guest kick a
run 1
vserial dump a/uart@10000000
vserial dump a/uart@10000000
vserial dump a/x
vserial dump b/uart@10000000
",
        files: &[DEVICE_TREE],
        transcript: &[
            b"created a vcpus 1 regions 5 frames 2071
poked a 16
kicked a
ran 1 idle 0 now 100
dump a/uart@10000000 lost 0 bytes 1
H
dump a/uart@10000000 lost 0 bytes 0

refused device
refused guest
",
        ],
        ..PLAIN
    },
];

/// A tree that one `guest create` names: what it is, what the line answers, and the file.
pub type TreeRow = (&'static str, &'static [u8], Base, usize, &'static [Fill]);

pub static TREES: [TreeRow; 22] = [
    (
        "the least tree",
        b"refused plan aspace 0\n",
        Base::Least,
        72,
        &[],
    ),
    (
        "another magic",
        b"refused tree magic 0\n",
        Base::Least,
        72,
        &[(0, 1, 4, 0xD10D_FEED)],
    ),
    (
        "an end in the root",
        b"refused tree balance 64\n",
        Base::Least,
        72,
        &[(64, 1, 4, 9)],
    ),
    (
        "an end without an end of the root",
        b"refused tree balance 68\n",
        Base::Least,
        72,
        &[(64, 1, 4, 4)],
    ),
    (
        "no token",
        b"refused tree token 64\n",
        Base::Least,
        72,
        &[(64, 1, 4, 5)],
    ),
    (
        "a property that is cut",
        b"refused tree short 64\n",
        Base::Least,
        72,
        &[(64, 1, 4, 3), (68, 1, 4, 100)],
    ),
    ("39 bytes", b"refused tree short 39\n", Base::Least, 39, &[]),
    (
        "a no-operation before the root",
        b"refused plan aspace 0\n",
        Base::Least,
        76,
        &[
            (4, 1, 4, 76),
            (12, 1, 4, 76),
            (36, 1, 4, 20),
            (56, 1, 4, 4),
            (60, 1, 4, 1),
            (64, 1, 4, 0),
            (68, 1, 4, 2),
            (72, 1, 4, 9),
        ],
    ),
    (
        "17 nodes in one another",
        b"refused tree deep 184\n",
        Base::Least,
        192,
        &[
            (4, 1, 4, 192),
            (12, 1, 4, 192),
            (36, 1, 4, 136),
            (56, 17, 8, 1),
            (60, 1, 8, 0),
            (68, 16, 8, 0x6100_0000),
        ],
    ),
    (
        "one byte too many",
        b"refused big\n",
        Base::Nothing,
        1_048_577,
        &[],
    ),
    (
        "as many bytes as a tree may have",
        b"refused tree magic 0\n",
        Base::Nothing,
        1_048_576,
        &[],
    ),
    (
        "the payload",
        b"created a vcpus 2 regions 5 frames 2071\n",
        Base::Payload,
        1171,
        &[NO_ALIAS, NO_PART],
    ),
    (
        "the payload with an alias",
        b"created a vcpus 2 regions 6 frames 2072\n",
        Base::Payload,
        1171,
        &[NO_PART],
    ),
    (
        "a ROM over the memory",
        b"refused plan overlap 0 1\n",
        Base::Payload,
        1171,
        &[NO_ALIAS, NO_PART, (ROM, 1, 4, 0x807F_F000)],
    ),
    (
        "a UART over the memory",
        b"refused plan overlap 0 3\n",
        Base::Payload,
        1171,
        &[NO_ALIAS, NO_PART, (UART, 1, 4, 0x8000_0000)],
    ),
    (
        "an alias past the memory",
        b"refused plan alias 11\n",
        Base::Payload,
        1171,
        &[NO_PART, (TARGET, 1, 4, 0x807F_F000)],
    ),
    (
        "an alias of a device",
        b"refused plan alias 11\n",
        Base::Payload,
        1171,
        &[NO_PART, (TARGET, 1, 4, 0x1000_0000)],
    ),
    (
        "a reserved region where nothing is reserved",
        b"refused plan host 11\n",
        Base::Payload,
        1171,
        &[NO_ALIAS],
    ),
    (
        "one VCPU and its memory",
        b"created a vcpus 1 regions 1 frames 2053\n",
        Base::Payload,
        1171,
        &[NO_VCPU1, NO_ROM, NO_VIRTUAL, NO_ALIAS, NO_PART],
    ),
    (
        "two VCPUs and their memory",
        b"created a vcpus 2 regions 1 frames 2053\n",
        Base::Payload,
        1171,
        &[NO_ROM, NO_VIRTUAL, NO_ALIAS, NO_PART],
    ),
    (
        "one VCPU and a ROM",
        b"created a vcpus 1 regions 2 frames 2071\n",
        Base::Payload,
        1171,
        &[NO_VCPU1, NO_VIRTUAL, NO_ALIAS, NO_PART],
    ),
    (
        "one VCPU, a ROM and an alias",
        b"created a vcpus 1 regions 3 frames 2072\n",
        Base::Payload,
        1171,
        &[NO_VCPU1, NO_VIRTUAL, NO_PART],
    ),
];
