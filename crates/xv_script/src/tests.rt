use super::*;
use std::alloc::{AllocError, Global};
use std::test::Fail;

// each line once, between comments, blanks of both kinds and line ends of both kinds; what each
// gives is computed from the definitions, in proofs/Examples.antt
const SCRIPT: &[u8] = b"# a script\r\n\
    guest create a t.dtb\n\
    \tguest  flat\tZ-_9 131072 \r\n\
    \n\
    guest load a 0x80000000 dir/a.bin\n\
    guest poke a 18446744073709551615 00fFa5\n\
    guest kick a\n\
    guest pause a\n\
    guest resume a\n\
    guest reset a\n\
    guest halt a\n\
    guest destroy a\n\
    guest regs a 0xFFFFFFFFFFFFFFFF\n\
    guest mem a 007 4096\n\
    guest digest a\n\
    guest audit a\n\
    guest list\n\
    \t \n\
    vserial input a/uart@10000000 48\n\
    vserial dump a/uart@10000000\n\
    vserial list\n\
    clock 50\n\
    tick 0x64\n\
    run 100000\r";

/// A script, and the line and the kind of its first fault.
type Row = (&'static str, u32, ScriptKind);

static FAULTS: [Row; 38] = [
    ("guest list\n#\x7F\n", 2, ScriptKind::Byte),
    ("guest list\n\x1F\n", 2, ScriptKind::Byte),
    ("guest fly \u{80}", 1, ScriptKind::Byte),
    ("run 1\r\r\n", 1, ScriptKind::Byte),
    ("run\r1\n", 1, ScriptKind::Byte),
    ("guest fly a", 1, ScriptKind::Word),
    ("\n\nguest\n", 3, ScriptKind::Word),
    ("guest # a", 1, ScriptKind::Word),
    ("vserial", 1, ScriptKind::Word),
    ("vserial kick a", 1, ScriptKind::Word),
    ("list", 1, ScriptKind::Word),
    ("Guest list", 1, ScriptKind::Word),
    ("guest kick", 1, ScriptKind::Count),
    ("guest kick a # b", 1, ScriptKind::Count),
    ("guest list a", 1, ScriptKind::Count),
    ("run", 1, ScriptKind::Count),
    ("guest poke 9 x", 1, ScriptKind::Count),
    ("guest kick 9a", 1, ScriptKind::Name),
    ("guest flat 9a x", 1, ScriptKind::Name),
    ("vserial dump a", 1, ScriptKind::Name),
    ("vserial dump a/", 1, ScriptKind::Name),
    ("vserial dump /b", 1, ScriptKind::Name),
    ("vserial input a/b/c x", 1, ScriptKind::Name),
    ("run x", 1, ScriptKind::Number),
    ("guest load a x !", 1, ScriptKind::Number),
    ("clock 18446744073709551616", 1, ScriptKind::Number),
    ("run 18446744073709551616", 1, ScriptKind::Number),
    ("tick 0X1", 1, ScriptKind::Number),
    ("guest flat a 0", 1, ScriptKind::Range),
    ("guest flat a 131073", 1, ScriptKind::Range),
    ("guest mem a 0 0", 1, ScriptKind::Range),
    ("guest mem a 0 4097", 1, ScriptKind::Range),
    ("run 0", 1, ScriptKind::Range),
    ("run 100001", 1, ScriptKind::Range),
    ("run 4294967297", 1, ScriptKind::Range),
    ("guest poke a 0 abc", 1, ScriptKind::Hex),
    ("vserial input a/b 0g", 1, ScriptKind::Hex),
    ("run 1\nrun 2\nrun 0\nguest\n", 3, ScriptKind::Range),
];

/// A text of so many bytes, all of which are one comment.
fn comment(alloc: Global, count: usize) -> Result<Vec<u8>, AllocError> {
    vec![in alloc; b'#'; count]
}

#[test]
fn reads_scripts_or_names_the_first_fault(rt: HostRuntime) -> Result<(), Fail> {
    let longest = comment(rt.alloc(), MOST_BYTES)?;
    for (text, count) in [(SCRIPT, 21), (longest.as_slice(), 0)] {
        let lines = parse(rt.alloc(), text).map(|lines| lines.len());
        assert_eq!(rt; lines, Ok(count));
    }
    for (text, line, kind) in &FAULTS {
        let wanted = ScriptFault::At {
            line: *line,
            kind: *kind,
        };
        let lines = parse(rt.alloc(), text.as_bytes()).map(|lines| lines.len());
        assert_eq!(rt; lines, Err(wanted), "{text}");
    }
    Ok(())
}
