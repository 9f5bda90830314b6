//! The fields of each line, from the left.
ghost use Rattle.std.specs.Prelude.{◌≡◌, ℕ, List, [], ◌∷◌, map};
ghost use Rattle.xv_script.specs.Command.{most_pages, most_shown, most_turns};
ghost use Rattle.xv_script.specs.Fault.{made_of};
ghost use Rattle.xv_script.specs.Field.{Guest, Port, File, Number, Range, Hex};
ghost use Rattle.xv_script.specs.Progress.{GivesInLine};
ghost use Rattle.xv_script.specs.Row.{command_by};

use crate::command::Command;
use crate::count::{one_word, three_words, two_words};
use crate::fault::{LineFault, ScriptKind};
use crate::field::{file_field, guest_field, hex_field, number_field, port_field, range_field};
use std::alloc::Global;
use xv_base::GuestName;

/// The most pages of a guest.
const MOST_PAGES: u32 = 131_072;

/// The most bytes of memory that are shown at once.
const MOST_SHOWN: u32 = 4096;

/// The most turns of one `run`.
const MOST_TURNS: u32 = 100_000;

/// `guest create N FILE`
#[tactic(auto, unfolding(crate::specs::Row::command_by))]
pub(crate) fn create(fields: &[&[u8]]) -> Result<Command, LineFault>
    ensures { GivesInLine result
        (command_by (Guest ∷ File ∷ []) Command.Create (map (λ word. word.now) fields.now)) }
{
    let Some((name, file)) = two_words(fields) else {
        return Err(LineFault::Kind(ScriptKind::Count));
    };
    let name = guest_field(name)?;
    let file = file_field(file)?;
    Ok(Command::Create(name, file))
}

/// `guest flat N PAGES`
#[tactic(auto, unfolding(crate::specs::Row::command_by))]
pub(crate) fn flat(fields: &[&[u8]]) -> Result<Command, LineFault>
    ensures { GivesInLine result
        (command_by (Guest ∷ Range 1 most_pages ∷ []) Command.Flat
        (map (λ word. word.now) fields.now)) }
{
    let Some((name, pages)) = two_words(fields) else {
        return Err(LineFault::Kind(ScriptKind::Count));
    };
    let name = guest_field(name)?;
    let pages = range_field(MOST_PAGES, pages)?;
    Ok(Command::Flat(name, pages))
}

/// The name where the fields are one guest's name alone.
#[tactic(auto, unfolding(crate::specs::Row::command_by))]
pub(crate) fn one_guest(fields: &[&[u8]]) -> Result<GuestName, ScriptKind>
    ensures { (make : List ℕ → Command) →
        command_by (Guest ∷ []) make (map (λ word. word.now) fields.now) ≡ made_of make result }
{
    let Some(name) = one_word(fields) else {
        return Err(ScriptKind::Count);
    };
    guest_field(name)
}

/// `guest load N GPA FILE`
#[tactic(auto, unfolding(crate::specs::Row::command_by))]
pub(crate) fn load(fields: &[&[u8]]) -> Result<Command, LineFault>
    ensures { GivesInLine result
        (command_by (Guest ∷ Number ∷ File ∷ []) Command.Load (map (λ word. word.now) fields.now)) }
{
    let Some((name, gpa, file)) = three_words(fields) else {
        return Err(LineFault::Kind(ScriptKind::Count));
    };
    let name = guest_field(name)?;
    let gpa = number_field(gpa)?;
    let file = file_field(file)?;
    Ok(Command::Load(name, gpa, file))
}

/// `guest poke N GPA HEX`
#[tactic(auto, unfolding(crate::specs::Row::command_by))]
pub(crate) fn poke(alloc: Global, fields: &[&[u8]]) -> Result<Command, LineFault>
    ensures { GivesInLine result
        (command_by (Guest ∷ Number ∷ Hex ∷ []) Command.Poke (map (λ word. word.now) fields.now)) }
{
    let Some((name, gpa, hex)) = three_words(fields) else {
        return Err(LineFault::Kind(ScriptKind::Count));
    };
    let name = guest_field(name)?;
    let gpa = number_field(gpa)?;
    let bytes = hex_field(alloc, hex)?;
    Ok(Command::Poke(name, gpa, bytes))
}

/// `guest regs N V`
#[tactic(auto, unfolding(crate::specs::Row::command_by))]
pub(crate) fn regs(fields: &[&[u8]]) -> Result<Command, LineFault>
    ensures { GivesInLine result
        (command_by (Guest ∷ Number ∷ []) Command.Regs (map (λ word. word.now) fields.now)) }
{
    let Some((name, vcpu)) = two_words(fields) else {
        return Err(LineFault::Kind(ScriptKind::Count));
    };
    let name = guest_field(name)?;
    let vcpu = number_field(vcpu)?;
    Ok(Command::Regs(name, vcpu))
}

/// `guest mem N GPA LEN`
#[tactic(auto, unfolding(crate::specs::Row::command_by))]
pub(crate) fn mem(fields: &[&[u8]]) -> Result<Command, LineFault>
    ensures { GivesInLine result
        (command_by (Guest ∷ Number ∷ Range 1 most_shown ∷ []) Command.Mem
        (map (λ word. word.now) fields.now)) }
{
    let Some((name, gpa, len)) = three_words(fields) else {
        return Err(LineFault::Kind(ScriptKind::Count));
    };
    let name = guest_field(name)?;
    let gpa = number_field(gpa)?;
    let len = range_field(MOST_SHOWN, len)?;
    Ok(Command::Mem(name, gpa, len))
}

/// `vserial input N/DEV HEX`
#[tactic(auto, unfolding(crate::specs::Row::command_by))]
pub(crate) fn input(alloc: Global, fields: &[&[u8]]) -> Result<Command, LineFault>
    ensures { GivesInLine result
        (command_by (Port ∷ Hex ∷ []) Command.Input (map (λ word. word.now) fields.now)) }
{
    let Some((port, hex)) = two_words(fields) else {
        return Err(LineFault::Kind(ScriptKind::Count));
    };
    let (name, dev) = port_field(port)?;
    let bytes = hex_field(alloc, hex)?;
    Ok(Command::Input(name, dev, bytes))
}

/// `vserial dump N/DEV`
#[tactic(auto, unfolding(crate::specs::Row::command_by))]
pub(crate) fn dump(fields: &[&[u8]]) -> Result<Command, LineFault>
    ensures { GivesInLine result
        (command_by (Port ∷ []) Command.Dump (map (λ word. word.now) fields.now)) }
{
    let Some(port) = one_word(fields) else {
        return Err(LineFault::Kind(ScriptKind::Count));
    };
    let (name, dev) = port_field(port)?;
    Ok(Command::Dump(name, dev))
}

/// `run T`
#[tactic(auto, unfolding(crate::specs::Row::command_by))]
pub(crate) fn run(fields: &[&[u8]]) -> Result<Command, LineFault>
    ensures { GivesInLine result
        (command_by (Range 1 most_turns ∷ []) Command.Run (map (λ word. word.now) fields.now)) }
{
    let Some(turns) = one_word(fields) else {
        return Err(LineFault::Kind(ScriptKind::Count));
    };
    let turns = range_field(MOST_TURNS, turns)?;
    Ok(Command::Run(turns))
}

/// `clock V`
#[tactic(auto, unfolding(crate::specs::Row::command_by))]
pub(crate) fn clock(fields: &[&[u8]]) -> Result<Command, LineFault>
    ensures { GivesInLine result
        (command_by (Number ∷ []) Command.Clock (map (λ word. word.now) fields.now)) }
{
    let Some(value) = one_word(fields) else {
        return Err(LineFault::Kind(ScriptKind::Count));
    };
    let value = number_field(value)?;
    Ok(Command::Clock(value))
}

/// `tick D`
#[tactic(auto, unfolding(crate::specs::Row::command_by))]
pub(crate) fn tick(fields: &[&[u8]]) -> Result<Command, LineFault>
    ensures { GivesInLine result
        (command_by (Number ∷ []) Command.Tick (map (λ word. word.now) fields.now)) }
{
    let Some(value) = one_word(fields) else {
        return Err(LineFault::Kind(ScriptKind::Count));
    };
    let value = number_field(value)?;
    Ok(Command::Tick(value))
}

/// Sees that there are no fields.
#[tactic(auto, unfolding(crate::specs::Row::command_by))]
pub(crate) fn no_field(fields: &[&[u8]]) -> Result<(), ScriptKind>
    ensures { (made : Command) →
        command_by [] made (map (λ word. word.now) fields.now) ≡ made_of (λ _. made) result }
{
    if fields.is_empty() {
        Ok(())
    } else {
        Err(ScriptKind::Count)
    }
}
