//! The properties of a node.
ghost use Rattle.std.specs.Prelude.{◌≡◌, ◌+◌, ◌≤◌, ◌^◌, ◌∷◌, IfOk, length};
ghost use Rattle.xv_fdt.specs.Fault.{Gives};
ghost use Rattle.xv_fdt.specs.Grammar as grammar;
ghost use Rattle.xv_fdt.specs.Progress.{taken_in, tokens_in, property_in};
ghost use Rattle.xv_fdt.specs.Token as spec;

use crate::blocks::{Blocks, property_at};
use crate::fault::{FdtFault, FdtKind, fault};
use crate::names::NameSet;
use crate::token::{Mark, next_token, padded_len};
use crate::tree::Prop;
use std::alloc::Global;

/// The property whose token stands at a place, and the place behind it. Its name is taken then.
fn property(
    alloc: Global,
    blocks: &Blocks<'_>,
    names: &mut NameSet,
    at: usize,
) -> Result<(Prop, usize), FdtFault>
    requires small { length blocks.now.structure.now ≤ 2 ^ 20 }
    requires near { at ≤ length blocks.now.structure.now }
    requires mark { spec.mark_at blocks.now.structure.now at ≡ Mark.Prop }
    ensures exact { Gives (λ found. found.0) result
        (grammar.property (taken_in names.old) at (property_in blocks.now at)) }
    ensures taken { IfOk result (λ found.
        taken_in names.new ≡ grammar.with_name (taken_in names.old) (found.0).name) }
    ensures behind { IfOk result (λ found.
        tokens_in blocks.now at
        ≡ spec.Prop at (property_in blocks.now at)
        ∷ tokens_in blocks.now found.1) }
    ensures forward { IfOk result (λ found. at + 12 ≤ found.1) }
    ensures near { IfOk result (λ found. found.1 ≤ length blocks.now.structure.now + 3) }
{
    let (bytes, value) = match property_at(blocks.structure, blocks.strings, at) {
        Ok(found) => found,
        Err(kind) => return Err(fault(kind, at)),
    };
    let Some(name) = names.new_name(bytes) else {
        return Err(fault(FdtKind::BadName, at));
    };
    names.add(name)?;
    let next = at + 12 + padded_len(value.len());
    let value = Vec::from_slice(alloc, value)?;
    Ok((Prop { name, value }, next))
}

/// The properties that stand from a place on, and the place behind them.
pub(crate) fn properties(
    alloc: Global,
    blocks: &Blocks<'_>,
    from: usize,
) -> Result<(Vec<Prop>, usize), FdtFault>
    requires small { length blocks.now.structure.now ≤ 2 ^ 20 }
    requires near { from ≤ length blocks.now.structure.now + 3 }
    ensures exact { Gives (λ found. ((found.0).items, tokens_in blocks.now found.1)) result
        (grammar.properties grammar.nobody (tokens_in blocks.now from)) }
    ensures forward { IfOk result (λ found. from ≤ found.1) }
    ensures near { IfOk result (λ found. found.1 ≤ length blocks.now.structure.now + 3) }
{
    let mut names = NameSet::new(alloc);
    let mut props = Vec::new(alloc);
    let mut at = from;
    loop {
        let (mark, place) = next_token(blocks.structure, at);
        match mark {
            Mark::Prop => {
                let (prop, next) = property(alloc, blocks, &mut names, place)?;
                props.push(prop)?;
                at = next;
            }
            _ => return Ok((props, place)),
        }
    }
}
