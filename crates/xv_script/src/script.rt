//! A script: its lines, one after another.
ghost use Rattle.std.specs.Prelude.{◌≡◌, ◌≤◌, ◌^◌, length, IfOk};
ghost use Rattle.xv_script.specs.Command.{AreInRange};
ghost use Rattle.xv_script.specs.Progress.{Gives, with_line};
ghost use Rattle.xv_script.specs.Script.{line_of, commands_from, most_bytes, commands};
ghost use Rattle.xv_script.specs.Text.{lines};

use crate::command::Line;
use crate::fault::{LineFault, ScriptFault, ScriptKind};
use crate::line::line_of;
use std::alloc::Global;

/// The most bytes of a script.
pub const MOST_BYTES: usize = 1_048_576;

/// The commands of the bytes of a script, in order, each with the number of its line, or the first
/// line that is none. Lines are counted from 1, comments too. A byte is looked at a few times at
/// most, and memory is taken for the commands and the words of one line.
#[tactic(auto, unfolding(crate::specs::Script::commands))]
pub fn parse(alloc: Global, bytes: &[u8]) -> Result<Vec<Line>, ScriptFault>
    ensures exact { Gives (λ all. all.items) result (commands bytes.now) }
    ensures range { IfOk result (λ all. AreInRange all.items) }
    ensures few { IfOk result (λ all. length all.items ≤ 2 ^ 20) }
{
    if MOST_BYTES < bytes.len() {
        return Err(ScriptFault::At {
            line: 0,
            kind: ScriptKind::Long,
        });
    }
    commands_of(alloc, bytes)
}

/// The commands of the lines of a text.
fn commands_of(alloc: Global, text: &[u8]) -> Result<Vec<Line>, ScriptFault>
    requires { length text.now ≤ most_bytes }
    ensures exact { Gives (λ all. all.items) result (commands_from 1 (lines text.now)) }
    ensures range { IfOk result (λ all. AreInRange all.items) }
    ensures few { IfOk result (λ all. length all.items ≤ 2 ^ 20) }
{
    let mut found = Vec::new(alloc);
    let mut number = 0;
    for line in text.split(|byte| *byte == b'\n') {
        number += 1;
        read_line(alloc, number, line, &mut found)?;
    }
    Ok(found)
}

/// Adds the command of the line of this number to those that were found before it.
fn read_line(
    alloc: Global,
    number: u32,
    line: &[u8],
    found: &mut Vec<Line>,
) -> Result<(), ScriptFault>
    ensures { Gives (λ _. found.new.items) result
        (with_line found.old.items number (line_of line.now)) }
{
    match line_of(alloc, line) {
        Ok(None) => Ok(()),
        Ok(Some(command)) => {
            let Ok(()) = found.push(Line { number, command }) else {
                return Err(ScriptFault::NoMemory);
            };
            Ok(())
        }
        Err(LineFault::Kind(kind)) => Err(ScriptFault::At { line: number, kind }),
        Err(LineFault::NoMemory) => Err(ScriptFault::NoMemory),
    }
}
