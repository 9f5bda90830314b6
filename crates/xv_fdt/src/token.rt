//! Tokens of the structure block, and what stands behind them.
ghost use Rattle.std.specs.Prelude.{◌≡◌, ◌≢◌, ◌+◌, ◌≤◌, ◌<◌, ◌^◌, ◌==◌, List, ℕ, IfSome, position};
ghost use Rattle.std.specs.Prelude.{length, drop};
ghost use Rattle.std.specs.Option.{option_map};
ghost use Rattle.std.specs.Borrow.{Bor};
ghost use Rattle.xv_fdt.specs.Token as spec;

use crate::fault::FdtKind;
use crate::header::word;

/// What stands where a token is wanted (5.4.1).
#[derive(Clone, Copy, Debug, PartialEq, Eq)]
pub(crate) enum Mark {
    Begin,
    EndNode,
    Prop,
    Nop,
    End,
    /// Another number.
    Strange,
    /// Fewer than 4 bytes.
    Cut,
}

fn mark_of(number: usize) -> Mark
    ensures { result ≡ spec.mark_of number }
{
    match number {
        1 => Mark::Begin,
        2 => Mark::EndNode,
        3 => Mark::Prop,
        4 => Mark::Nop,
        9 => Mark::End,
        _ => Mark::Strange,
    }
}

#[tactic(auto, unfolding(crate::specs::Token::mark_at))]
pub(crate) fn mark_at(block: &[u8], at: usize) -> Mark
    requires small { length block.now ≤ 2 ^ 20 }
    requires near { at ≤ 2 ^ 20 + 3 }
    ensures mark { result ≡ spec.mark_at block.now at }
    ensures whole { result ≢ Mark.Cut → at + 4 ≤ length block.now }
{
    if block.len() < at + 4 {
        Mark::Cut
    } else {
        mark_of(word(block, at))
    }
}

/// The next token from a place on that isn't a no-operation, with its place.
pub(crate) fn next_token(block: &[u8], from: usize) -> (Mark, usize)
    requires small { length block.now ≤ 2 ^ 20 }
    requires near { from ≤ length block.now + 3 }
    ensures mark { spec.mark_at block.now result.1 ≡ result.0 }
    ensures solid { result.0 ≢ Mark.Nop }
    ensures whole { result.0 ≢ Mark.Cut → result.1 + 4 ≤ length block.now }
    ensures same { (strings : List ℕ) →
        spec.tokens block.now strings result.1 ≡ spec.tokens block.now strings from }
    ensures near { result.1 ≤ length block.now + 3 }
    ensures forward { from ≤ result.1 }
{
    let mut at = from;
    loop {
        match mark_at(block, at) {
            Mark::Nop => at += 4,
            mark => return (mark, at),
        }
    }
}

fn zero_position(bytes: &[u8]) -> Option<usize>
    ensures inside { IfSome result (λ len. len < length bytes.now) }
    ensures position { result ≡ position (λ byte. byte == 0) bytes.now }
{
    bytes.iter().position(|byte| *byte == 0)
}

/// The bytes up to the first 0, or None where there is no 0.
fn text(bytes: &[u8]) -> Option<&[u8]>
    ensures inside { IfSome result (λ text. length text.now < length bytes.now) }
    ensures text { option_map (λ (text : Bor (List ℕ)). text.now) result ≡ spec.text bytes.now }
{
    match zero_position(bytes) {
        Some(len) => Some(&bytes[..len]),
        None => None,
    }
}

/// The bytes from a place on up to the first 0, or None where there is no 0.
pub(crate) fn text_from(bytes: &[u8], at: usize) -> Option<&[u8]>
    ensures inside { IfSome result (λ text. at + length text.now < length bytes.now) }
    ensures text { option_map (λ (text : Bor (List ℕ)). text.now) result
        ≡ spec.text (drop at bytes.now) }
{
    if bytes.len() < at {
        None
    } else {
        text(&bytes[at..])
    }
}

/// The length with padding to the next multiple of 4.
pub(crate) fn padded_len(len: usize) -> usize
    requires { len < 2 ^ 63 }
    ensures padded_len { result ≡ spec.padded_len len }
    ensures least { len ≤ result }
    ensures most { result < len + 4 }
{
    (len + 3) / 4 * 4
}
