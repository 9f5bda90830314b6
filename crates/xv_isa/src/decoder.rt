//! The decoder: the row by nested arms, then the operands by the row's form.

ghost use Rattle.std.specs.Prelude.{◌≡◌, ℕ, ◌<◌, ◌+◌, ◌*◌, ◌/◌, ◌%◌, ◌^◌, Option, Some, None};
ghost use Rattle.std.specs.Prelude.{MatchOption, IfSome, IfNone, IsSomeAnd, slice_get};
ghost use Rattle.xv_isa.specs.Rows.{rows, Matches, IsRowAt, row_of};
ghost use Rattle.xv_isa.specs.Operands.{decode_of, operands_of};
ghost use Rattle.xv_isa.specs.Encoding.{InRange};

use crate::fields::operands;
use crate::instruction::Insn;
use crate::rows::{Form, instruction_rows};

macro_rules! arms_of {
    ($word:ident $(opcode $opcode:literal { $($group:tt)* })*) => {
        match $word & 0x7f {
            $($opcode => group_of!($word $($group)*),)*
            _ => None,
        }
    };
}

// The arms of one opcode: by the first mask, then by the masks that are left.
macro_rules! group_of {
    ($word:ident) => { None };
    ($word:ident mask $mask:literal {
        $($place:literal $bits:literal $form:ident $op:ident,)*
    } $($rest:tt)*) => {
        match $word & $mask {
            $($bits => Some(Found { place: $place, form: Form::$form }),)*
            _ => group_of!($word $($rest)*),
        }
    };
}

/// The row that a word matches.
#[derive(Clone, Copy)]
struct Found {
    place: u8,
    form: Form,
}

// By opcode, then by each mask's fixed bits: funct3, then the longer function fields.
#[tactic(auto, unfolding(crate::specs::Rows::rows))]
fn find(word: u32) -> Option<Found>
    ensures { MatchOption result (row_of word ≡ None) (λ f. IsRowAt word f.place f.form) }
{
    instruction_rows!(arms_of!(word))
}

/// The instruction of a word, or None where the word is illegal: no row matches it. It takes
/// constant time: a test of the opcode and at most three more choose the row.
#[tactic(auto, using(crate::proofs::OneRow::decode_none, crate::proofs::OneRow::decode_some))]
pub fn decode(word: u32) -> Option<Insn>
    ensures value { result ≡ decode_of word }
    ensures one { IfSome result (λ i. IsSomeAnd (slice_get rows i.row)
        (λ r. Matches word r × (i ≡ operands_of r.form i.row word))) }
    ensures range { IfSome result (λ i. InRange i) }
    ensures none { IfNone result ((j : ℕ) → IfSome (slice_get rows j) (λ r. ¬ Matches word r)) }
{
    let Some(found) = find(word) else {
        return None;
    };
    Some(operands(found.form, found.place, word))
}
