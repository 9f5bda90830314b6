//! Runs of the program, and what they write. Numbers come from the tables of the standards, worked
//! out beside the program, and digests from another program; many more rows stand in rows/, and are
//! run by the built program.
use super::trees::{Base, Fill};

/// A file: the bytes that it begins with, how many it has, and what they are filled with.
#[derive(Clone, Copy)]
pub struct FileOf {
    pub name: &'static [u8],
    pub base: Base,
    pub len: usize,
    pub fills: &'static [Fill],
}

/// A run: the script, with so many `#` behind it; the files; the numbers from 0 of the reads, puts
/// and fetches that fail; how many bytes the sink takes; the status, and the parts of what it took.
#[derive(Clone, Copy)]
pub struct Row {
    pub message: &'static str,
    pub script: &'static [u8],
    pub marks: usize,
    pub files: &'static [FileOf],
    pub reads: &'static [u64],
    pub puts: &'static [u64],
    pub fetches: &'static [u64],
    pub room: usize,
    pub status: u8,
    pub transcript: &'static [&'static [u8]],
}

/// A run in which nothing fails.
pub const PLAIN: Row = Row {
    message: "",
    script: b"",
    marks: 0,
    files: &[],
    reads: &[],
    puts: &[],
    fetches: &[],
    room: 4096,
    status: 0,
    transcript: &[],
};

/// The last lines of a VCPU whose registers from x8 on are 0, and whose CSRs are those of a reset.
const TAIL: &[u8] =
    b"x8=0000000000000000 x9=0000000000000000 x10=0000000000000000 x11=0000000000000000
x12=0000000000000000 x13=0000000000000000 x14=0000000000000000 x15=0000000000000000
x16=0000000000000000 x17=0000000000000000 x18=0000000000000000 x19=0000000000000000
x20=0000000000000000 x21=0000000000000000 x22=0000000000000000 x23=0000000000000000
x24=0000000000000000 x25=0000000000000000 x26=0000000000000000 x27=0000000000000000
x28=0000000000000000 x29=0000000000000000 x30=0000000000000000 x31=0000000000000000
sstatus=0000000200000000 sie=0000000000000000 ssip=0000000000000000 stvec=0000000000000000
sscratch=0000000000000000 sepc=0000000000000000 scause=0000000000000000 stval=0000000000000000
satp=0000000000000000 scounteren=0000000000000000 senvcfg=0000000000000000 timer=ffffffffffffffff
";

const IMAGE: FileOf = FileOf {
    name: b"i",
    base: Base::Image,
    len: 16,
    fills: &[],
};

const EMPTY: FileOf = FileOf {
    name: b"none",
    base: Base::Nothing,
    len: 0,
    fills: &[],
};

// A function that has a table is proved in time that grows faster than the table, so there are
// several.
pub static ROWS: [Row; 15] = [
    Row {
        message: "the first script",
        script: b"guest flat a 4
guest poke a 0x80000000 930270001383f2ffb38362006f000000
guest kick a
run 1
guest regs a 0
",
        transcript: &[
            b"created a vcpus 1 regions 1 frames 6
poked a 16
kicked a
ran 1 idle 0 now 100
regs a 0 started S pc=000000008000000c
x0=0000000000000000 x1=0000000000000000 x2=0000000000000000 x3=0000000000000000
x4=0000000000000000 x5=0000000000000007 x6=0000000000000006 x7=000000000000000d
",
            TAIL,
        ],
        ..PLAIN
    },
    Row {
        message: "three turns of a loop of ADDI and JAL",
        script: b"guest flat a 4
guest poke a 0x80000000 938212006ff0dfff
guest kick a
run 3
guest regs a 0
",
        transcript: &[
            b"created a vcpus 1 regions 1 frames 6
poked a 8
kicked a
ran 3 idle 0 now 300
regs a 0 started S pc=0000000080000000
x0=0000000000000000 x1=0000000000000000 x2=0000000000000000 x3=0000000000000000
x4=0000000000000000 x5=00000000000005dc x6=0000000000000000 x7=0000000000000000
",
            TAIL,
        ],
        ..PLAIN
    },
    Row {
        message: "bytes behind the last page",
        script: b"guest flat a 4
guest poke a 0x80004000 930270001383f2ffb38362006f000000
guest kick a
run 1
guest regs a 0
",
        transcript: &[
            b"created a vcpus 1 regions 1 frames 6
refused outside
kicked a
ran 1 idle 0 now 100
regs a 0 started S pc=0000000000000000
x0=0000000000000000 x1=0000000000000000 x2=0000000000000000 x3=0000000000000000
x4=0000000000000000 x5=0000000000000000 x6=0000000000000000 x7=0000000000000000
x8=0000000000000000 x9=0000000000000000 x10=0000000000000000 x11=0000000000000000
x12=0000000000000000 x13=0000000000000000 x14=0000000000000000 x15=0000000000000000
x16=0000000000000000 x17=0000000000000000 x18=0000000000000000 x19=0000000000000000
x20=0000000000000000 x21=0000000000000000 x22=0000000000000000 x23=0000000000000000
x24=0000000000000000 x25=0000000000000000 x26=0000000000000000 x27=0000000000000000
x28=0000000000000000 x29=0000000000000000 x30=0000000000000000 x31=0000000000000000
sstatus=0000000200000100 sie=0000000000000000 ssip=0000000000000000 stvec=0000000000000000
sscratch=0000000000000000 sepc=0000000000000000 scause=0000000000000001 stval=0000000000000000
satp=0000000000000000 scounteren=0000000000000000 senvcfg=0000000000000000 timer=ffffffffffffffff
",
        ],
        ..PLAIN
    },
    Row {
        message: "more pages than there are frames",
        script: b"guest flat a 65536
guest poke a 0x80000000 930270001383f2ffb38362006f000000
guest kick a
run 1
guest regs a 0
",
        transcript: &[
            b"refused frames need 65665 free 16320
refused guest
refused guest
ran 1 idle 1 now 100
refused guest
",
        ],
        ..PLAIN
    },
    Row {
        message: "WFI with nothing enabled: later turns are idle",
        script: b"guest flat a 1
guest poke a 0x80000000 73005010930210006f000000
guest kick a
run 3
guest regs a 0
",
        transcript: &[
            b"created a vcpus 1 regions 1 frames 3
poked a 12
kicked a
ran 3 idle 2 now 300
regs a 0 waiting S pc=0000000080000004
x0=0000000000000000 x1=0000000000000000 x2=0000000000000000 x3=0000000000000000
x4=0000000000000000 x5=0000000000000000 x6=0000000000000000 x7=0000000000000000
",
            TAIL,
        ],
        ..PLAIN
    },
    Row {
        message: "no line",
        script: b"",
        ..PLAIN
    },
    Row {
        message: "carriage returns, tabs, blank lines, comments, a last line without its end",
        script: b"# a\r\n\tguest  flat\ta 1 \r\n\n \t\r\nrun 1",
        transcript: &[b"created a vcpus 1 regions 1 frames 3\nran 1 idle 1 now 100\n"],
        ..PLAIN
    },
    Row {
        message: "lines that are not built, and a list in a line without its end",
        script: b"guest pause a
guest resume a
guest reset a
guest halt a
guest destroy a
guest list",
        transcript: &[
            b"refused unbuilt
refused unbuilt
refused unbuilt
refused unbuilt
refused unbuilt
guests 0
",
        ],
        ..PLAIN
    },
    Row {
        message: "a clock that doesn't go back, and a tick",
        script: b"clock 50
clock 50
clock 49
tick 7
run 2
clock 63
clock 0xffffffffffffffff
run 1
clock 5
",
        transcript: &[
            b"clock 50
clock 50
refused clock
tick 7
ran 2 idle 2 now 64
refused clock
clock 18446744073709551615
ran 1 idle 1 now 6
refused clock
",
        ],
        ..PLAIN
    },
    Row {
        message: "the states of a flat guest, and the lists",
        script: b"vserial list
guest flat a 1
guest list
guest kick a
guest kick a
guest poke a 0x80000000 00
guest list
vserial list
guest kick b
guest flat a 1
",
        transcript: &[
            b"vserial 0
created a vcpus 1 regions 1 frames 3
guests 1
a reset vcpus 1
kicked a
refused state
refused state
guests 1
a running vcpus 1
vserial 0
refused guest
refused used
",
        ],
        ..PLAIN
    },
    Row {
        message: "a name in use comes before a second guest, and that before the fetch",
        script: b"guest flat a 1
guest flat a 1
guest create a t
guest flat b 1
guest create b t
guest regs a 1
guest regs b 0
",
        fetches: &[0],
        transcript: &[
            b"created a vcpus 1 regions 1 frames 3
refused used
refused used
refused unbuilt
refused unbuilt
refused vcpu
refused guest
",
        ],
        ..PLAIN
    },
    Row {
        message: "as many turns as a script may have",
        script: b"run 100000
run 100000
run 100000
run 100000
run 100000
run 100000
run 100000
run 100000
run 100000
run 100000
run 1
",
        transcript: &[
            b"ran 100000 idle 100000 now 10000000
ran 100000 idle 100000 now 20000000
ran 100000 idle 100000 now 30000000
ran 100000 idle 100000 now 40000000
ran 100000 idle 100000 now 50000000
ran 100000 idle 100000 now 60000000
ran 100000 idle 100000 now 70000000
ran 100000 idle 100000 now 80000000
ran 100000 idle 100000 now 90000000
ran 100000 idle 100000 now 100000000
refused turns
",
        ],
        ..PLAIN
    },
    Row {
        message: "an image, memory and its digest",
        script: b"guest flat a 1
guest digest a
guest load a 0x80000000 i
guest mem a 0x80000000 4
guest mem a 0x80000ffc 8
guest digest a
guest load a 0x80000ff1 i
guest load a 0x80001000 none
guest load a 0x80001001 none
guest load a 0 j
guest load b 0 i
guest kick a
guest load a 0x80000000 j
",
        files: &[IMAGE, EMPTY],
        transcript: &[
            b"created a vcpus 1 regions 1 frames 3
digest a ad7facb2586fc6e966c004d7d1d16b024f5805ff7cb47c7a85dabd8b48892ca7
loaded a 16
mem a 0000000080000000 93027000
refused outside
digest a 98e8dff19415a973fea7d30475673b90dcfd3c8a7bd78876bb30f8e1c534c160
refused outside
loaded a 0
refused outside
refused missing
refused guest
kicked a
refused state
",
        ],
        ..PLAIN
    },
    Row {
        message: "memory of a flat guest and its audit",
        script: b"guest flat a 4
guest poke a 0x80000000 930270001383f2ffb38362006f000000
guest mem a 0x80000000 16
guest audit a
guest kick a
guest audit a
guest audit b
",
        transcript: &[
            b"created a vcpus 1 regions 1 frames 6
poked a 16
mem a 0000000080000000 930270001383f2ffb38362006f000000
audit a 4
kicked a
audit a 4
refused guest
",
        ],
        ..PLAIN
    },
    Row {
        message: "one frame more than there are, and as many as there are",
        script: b"guest flat a 16288
guest flat a 16287
guest flat b 1
",
        transcript: &[
            b"refused frames need 16321 free 16320
created a vcpus 1 regions 1 frames 16320
refused unbuilt
",
        ],
        ..PLAIN
    },
];

// Faults of the files, the source and the sink, and scripts that are refused.
pub static FAULT_ROWS: [Row; 18] = [
    Row {
        message: "the first fetch fails",
        script: b"guest flat a 1\nguest load a 0x80000000 i\nguest digest a\n",
        files: &[IMAGE],
        fetches: &[0],
        status: 6,
        transcript: &[b"created a vcpus 1 regions 1 frames 3\n"],
        ..PLAIN
    },
    Row {
        message: "the second fetch fails",
        script: b"guest create a t\nguest flat a 1\nguest load a 0x80000000 i\n",
        files: &[IMAGE],
        fetches: &[1],
        status: 6,
        transcript: &[b"refused missing\ncreated a vcpus 1 regions 1 frames 3\n"],
        ..PLAIN
    },
    Row {
        message: "the first read fails",
        script: b"run 1\n",
        reads: &[0],
        status: 4,
        ..PLAIN
    },
    Row {
        message: "a read behind the last byte fails",
        script: b"run 1\n",
        reads: &[1],
        status: 4,
        ..PLAIN
    },
    Row {
        message: "put number 0 fails",
        script: b"run 1\nrun 2\nrun 3\n",
        puts: &[0],
        status: 5,
        ..PLAIN
    },
    Row {
        message: "put number 1 fails",
        script: b"run 1\nrun 2\nrun 3\n",
        puts: &[1],
        status: 5,
        transcript: &[b"ran 1 idle 1 now 100\n"],
        ..PLAIN
    },
    Row {
        message: "put number 2 fails",
        script: b"run 1\nrun 2\nrun 3\n",
        puts: &[2],
        status: 5,
        transcript: &[b"ran 1 idle 1 now 100\nran 2 idle 2 now 300\n"],
        ..PLAIN
    },
    Row {
        message: "a sink of 25 bytes",
        script: b"run 1\nrun 2\nrun 3\n",
        room: 25,
        status: 5,
        transcript: &[b"ran 1 idle 1 now 100\n"],
        ..PLAIN
    },
    Row {
        message: "the line of a refused script does not fit",
        script: b"guest fly a\n",
        room: 10,
        status: 5,
        ..PLAIN
    },
    Row {
        message: "script 0 long",
        script: b"#",
        marks: 1_048_576,
        status: 3,
        transcript: &[b"script 0 long\n"],
        ..PLAIN
    },
    Row {
        message: "script 1 word",
        script: b"guest fly a",
        status: 3,
        transcript: &[b"script 1 word\n"],
        ..PLAIN
    },
    Row {
        message: "script 1 count",
        script: b"guest kick",
        status: 3,
        transcript: &[b"script 1 count\n"],
        ..PLAIN
    },
    Row {
        message: "script 1 name",
        script: b"guest kick 9a",
        status: 3,
        transcript: &[b"script 1 name\n"],
        ..PLAIN
    },
    Row {
        message: "script 1 number",
        script: b"run x",
        status: 3,
        transcript: &[b"script 1 number\n"],
        ..PLAIN
    },
    Row {
        message: "script 1 range",
        script: b"guest mem a 0 0",
        status: 3,
        transcript: &[b"script 1 range\n"],
        ..PLAIN
    },
    Row {
        message: "script 1 hex",
        script: b"guest poke a 0 abc",
        status: 3,
        transcript: &[b"script 1 hex\n"],
        ..PLAIN
    },
    Row {
        message: "script 1 byte",
        script: b"#\x01",
        status: 3,
        transcript: &[b"script 1 byte\n"],
        ..PLAIN
    },
    Row {
        message: "script 3 range",
        script: b"run 1\n\nrun 0",
        status: 3,
        transcript: &[b"script 3 range\n"],
        ..PLAIN
    },
];
