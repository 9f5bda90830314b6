//! A line of a script: the command that its words say.
ghost use Rattle.std.specs.Prelude.{◌≡◌, ℕ, List, [], ◌∷◌, map};
ghost use Rattle.std.specs.Str.{bytes_eq};
ghost use Rattle.xv_script.specs.Order.{to_guest, ordered};
ghost use Rattle.xv_script.specs.Progress.{GivesInLine};
ghost use Rattle.xv_script.specs.Row.{guest_rows, name_rows, vserial_rows, other_rows};
ghost use Rattle.xv_script.specs.Row.{command_with, command_in, command_of};
ghost use Rattle.xv_script.specs.Script.{line_of};

use crate::command::Command;
use crate::count::first_word;
use crate::fault::{LineFault, ScriptKind};
use crate::fields::{
    clock, create, dump, flat, input, load, mem, no_field, one_guest, poke, regs, run, tick,
};
use crate::text::{are_allowed, is_comment, without_return, words_of};
use std::alloc::Global;
use xv_base::GuestName;

/// Whether a word is this text.
fn is_text(word: &[u8], text: &str) -> bool
    ensures { result ≡ bytes_eq word.now text.now }
{
    word == text.as_bytes()
}

/// The command of a line about a guest, of the words behind the first.
fn guest_line(alloc: Global, words: &[&[u8]]) -> Result<Command, LineFault>
    ensures { GivesInLine result (command_in guest_rows (map (λ word. word.now) words.now)) }
{
    let Some((verb, fields)) = first_word(words) else {
        return Err(LineFault::Kind(ScriptKind::Word));
    };
    if is_text(verb, "create") {
        create(fields)
    } else if is_text(verb, "flat") {
        flat(fields)
    } else if is_text(verb, "load") {
        load(fields)
    } else if is_text(verb, "poke") {
        poke(alloc, fields)
    } else if is_text(verb, "regs") {
        regs(fields)
    } else if is_text(verb, "mem") {
        mem(fields)
    } else if is_text(verb, "list") {
        no_field(fields)?;
        Ok(Command::List)
    } else {
        name_line(verb, fields)
    }
}

/// What a line asks of a guest of which it gives the name alone.
#[derive(Clone, Copy)]
pub enum Order {
    Kick,
    Pause,
    Resume,
    Reset,
    Halt,
    Destroy,
    Digest,
    Audit,
}

/// The order of which this is the second word.
fn order_of(verb: &[u8]) -> Option<Order>
    ensures { (words : List (List ℕ)) →
        command_with name_rows verb.now words ≡ ordered result words }
{
    if is_text(verb, "kick") {
        Some(Order::Kick)
    } else if is_text(verb, "pause") {
        Some(Order::Pause)
    } else if is_text(verb, "resume") {
        Some(Order::Resume)
    } else if is_text(verb, "reset") {
        Some(Order::Reset)
    } else if is_text(verb, "halt") {
        Some(Order::Halt)
    } else if is_text(verb, "destroy") {
        Some(Order::Destroy)
    } else if is_text(verb, "digest") {
        Some(Order::Digest)
    } else if is_text(verb, "audit") {
        Some(Order::Audit)
    } else {
        None
    }
}

/// The order, to the guest of this name.
fn to_guest(order: Order, name: GuestName) -> Command
    ensures { result ≡ to_guest order name }
{
    match order {
        Order::Kick => Command::Kick(name),
        Order::Pause => Command::Pause(name),
        Order::Resume => Command::Resume(name),
        Order::Reset => Command::Reset(name),
        Order::Halt => Command::Halt(name),
        Order::Destroy => Command::Destroy(name),
        Order::Digest => Command::Digest(name),
        Order::Audit => Command::Audit(name),
    }
}

/// The command of a line that has a guest's name alone behind the second word.
fn name_line(verb: &[u8], fields: &[&[u8]]) -> Result<Command, LineFault>
    ensures { GivesInLine result
        (command_with name_rows verb.now (map (λ word. word.now) fields.now)) }
{
    let Some(order) = order_of(verb) else {
        return Err(LineFault::Kind(ScriptKind::Word));
    };
    let name = one_guest(fields)?;
    Ok(to_guest(order, name))
}

/// The command of a line about serial ports, of the words behind the first.
fn vserial_line(alloc: Global, words: &[&[u8]]) -> Result<Command, LineFault>
    ensures { GivesInLine result (command_in vserial_rows (map (λ word. word.now) words.now)) }
{
    let Some((verb, fields)) = first_word(words) else {
        return Err(LineFault::Kind(ScriptKind::Word));
    };
    if is_text(verb, "input") {
        input(alloc, fields)
    } else if is_text(verb, "dump") {
        dump(fields)
    } else if is_text(verb, "list") {
        no_field(fields)?;
        Ok(Command::Ports)
    } else {
        Err(LineFault::Kind(ScriptKind::Word))
    }
}

/// The command of a line of another first word and the fields behind it.
fn other_line(first: &[u8], fields: &[&[u8]]) -> Result<Command, LineFault>
    ensures { GivesInLine result
        (command_with other_rows first.now (map (λ word. word.now) fields.now)) }
{
    if is_text(first, "clock") {
        clock(fields)
    } else if is_text(first, "tick") {
        tick(fields)
    } else if is_text(first, "run") {
        run(fields)
    } else {
        Err(LineFault::Kind(ScriptKind::Word))
    }
}

/// The command of the words of a line.
#[tactic(auto, unfolding(crate::specs::Row::command_of))]
fn command_of(alloc: Global, words: &[&[u8]]) -> Result<Command, LineFault>
    ensures { GivesInLine result (command_of (map (λ word. word.now) words.now)) }
{
    let Some((first, others)) = first_word(words) else {
        return Err(LineFault::Kind(ScriptKind::Word));
    };
    if is_text(first, "guest") {
        guest_line(alloc, others)
    } else if is_text(first, "vserial") {
        vserial_line(alloc, others)
    } else {
        other_line(first, others)
    }
}

/// The command of a line, if it is no comment. One carriage return at its end is dropped.
#[tactic(auto, unfolding(crate::specs::Script::line_of))]
pub(crate) fn line_of(alloc: Global, line: &[u8]) -> Result<Option<Command>, LineFault>
    ensures { GivesInLine result (line_of line.now) }
{
    let kept = without_return(line);
    if !are_allowed(kept) {
        return Err(LineFault::Kind(ScriptKind::Byte));
    }
    let words = words_of(alloc, kept)?;
    if is_comment(&words) {
        return Ok(None);
    }
    let command = command_of(alloc, &words)?;
    Ok(Some(command))
}
