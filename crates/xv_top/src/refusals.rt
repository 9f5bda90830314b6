//! The lines that refuse a command or a script, printed.
ghost use Rattle.std.specs.Prelude.{◌≡◌, ◌≤◌, [], length};
ghost use Rattle.xv_tree.specs.declared.fault.PlanFault.TheVariants as faults;
ghost use Rattle.xv_top.specs.Lists as lists;
ghost use Rattle.xv_top.specs.Texts as texts;

use xv_fdt::FdtKind;
use xv_print::Printer;
use xv_script::ScriptKind;
use xv_tree::PlanKind;

/// `refused WORD`
#[tactic(auto, unfolding(crate::specs::Texts::refused_text))]
pub fn refused(printer: &mut Printer, word: &[u8])
    requires empty { printer.old ≡ [] }
    requires short { length word.now ≤ 40 }
    ensures { printer.new ≡ texts.refused_text word.now }
{
    printer.text(b"refused ");
    printer.text(word);
    printer.text(b"\n");
}

/// `refused frames need NEEDED free FREE`
#[tactic(auto, unfolding(crate::specs::Texts::frames_text))]
pub fn frames(printer: &mut Printer, needed: u64, free: u64)
    requires { printer.old ≡ [] }
    ensures { printer.new ≡ texts.frames_text needed free }
{
    printer.text(b"refused frames need ");
    printer.number(needed);
    printer.text(b" free ");
    printer.number(free);
    printer.text(b"\n");
}

/// `refused full free FREE`
#[tactic(auto, unfolding(crate::specs::Lists::full_text))]
pub fn full(printer: &mut Printer, free: u64)
    requires { printer.old ≡ [] }
    ensures { printer.new ≡ lists.full_text free }
{
    printer.text(b"refused full free ");
    printer.number(free);
    printer.text(b"\n");
}

/// `refused tree KIND OFFSET`
#[tactic(auto, unfolding(crate::specs::Texts::tree_text))]
pub fn tree(printer: &mut Printer, kind: FdtKind, offset: u32)
    requires { printer.old ≡ [] }
    ensures { printer.new ≡ texts.tree_text kind offset }
{
    printer.text(b"refused tree ");
    printer.text(fdt_word(kind));
    printer.text(b" ");
    printer.number(u64::from(offset));
    printer.text(b"\n");
}

/// `refused plan KIND NODE`
#[tactic(auto, unfolding(crate::specs::Texts::plan_text))]
pub fn plan(printer: &mut Printer, kind: PlanKind, node: u32)
    requires { printer.old ≡ [] }
    ensures { printer.new ≡ texts.plan_text (faults.At kind node) }
{
    printer.text(b"refused plan ");
    printer.text(plan_word(kind));
    printer.text(b" ");
    printer.number(u64::from(node));
    printer.text(b"\n");
}

/// `refused plan overlap FIRST SECOND`
#[tactic(auto, unfolding(crate::specs::Texts::plan_text))]
pub fn overlap(printer: &mut Printer, first: u8, second: u8)
    requires { printer.old ≡ [] }
    ensures { printer.new ≡ texts.plan_text (faults.Overlap first second) }
{
    printer.text(b"refused plan overlap ");
    printer.number(u64::from(first));
    printer.text(b" ");
    printer.number(u64::from(second));
    printer.text(b"\n");
}

/// `script LINE KIND`
#[tactic(auto, unfolding(crate::specs::Texts::script_text))]
pub fn script(printer: &mut Printer, line: u32, kind: ScriptKind)
    requires { printer.old ≡ [] }
    ensures { printer.new ≡ texts.script_text line kind }
{
    printer.text(b"script ");
    printer.number(u64::from(line));
    printer.text(b" ");
    printer.text(script_word(kind));
    printer.text(b"\n");
}

fn fdt_word(kind: FdtKind) -> &'static [u8]
    ensures text { result.now ≡ texts.fdt_word kind }
    ensures short { length result.now ≤ 10 }
{
    match kind {
        FdtKind::BadMagic => b"magic",
        FdtKind::BadVersion => b"version",
        FdtKind::Short => b"short",
        FdtKind::BadOffset => b"offset",
        FdtKind::BadToken => b"token",
        FdtKind::BadName => b"name",
        FdtKind::Unbalanced => b"balance",
        FdtKind::TooDeep => b"deep",
        FdtKind::TooBig => b"big",
    }
}

fn plan_word(kind: PlanKind) -> &'static [u8]
    ensures text { result.now ≡ texts.plan_word kind }
    ensures short { length result.now ≤ 11 }
{
    match kind {
        PlanKind::NoAspace => b"aspace",
        PlanKind::NoVcpus => b"vcpus",
        PlanKind::TooManyVcpus => b"manyvcpus",
        PlanKind::TooManyRegions => b"manyregions",
        PlanKind::BadManifest => b"manifest",
        PlanKind::BadKind => b"kind",
        PlanKind::BadAddress => b"address",
        PlanKind::BadSize => b"size",
        PlanKind::BadStart => b"start",
        PlanKind::BadPriority => b"priority",
        PlanKind::BadIrq => b"irq",
        PlanKind::BadAlias => b"alias",
        PlanKind::BadHost => b"host",
    }
}

fn script_word(kind: ScriptKind) -> &'static [u8]
    ensures text { result.now ≡ texts.script_word kind }
    ensures short { length result.now ≤ 6 }
{
    match kind {
        ScriptKind::Long => b"long",
        ScriptKind::Byte => b"byte",
        ScriptKind::Word => b"word",
        ScriptKind::Count => b"count",
        ScriptKind::Name => b"name",
        ScriptKind::Number => b"number",
        ScriptKind::Range => b"range",
        ScriptKind::Hex => b"hex",
    }
}
