//! The two blocks of a file that its tokens speak of, and what stands behind a token.
ghost use Rattle.std.specs.Prelude.{◌≡◌, ◌+◌, ◌≤◌, ◌<◌, ◌^◌, IfOk, MatchResult, Ok, Err, length};
ghost use Rattle.xv_fdt.specs.Token.{name_at, property_at};
ghost use Rattle.xv_fdt.specs.Tree.{Property};

use crate::fault::FdtKind;
use crate::header::word;
use crate::token::text_from;

/// The bytes of a file up to the end of its structure block, in which the place of a token is its
/// offset in the file, and the bytes of its strings block.
#[derive(Clone, Copy)]
pub(crate) struct Blocks<'a> {
    pub structure: &'a [u8],
    pub strings: &'a [u8],
}

/// The name of the node whose begin token stands at a place.
#[tactic(auto, unfolding(crate::specs::Token::name_at))]
pub(crate) fn name_at(block: &[u8], at: usize) -> Result<&[u8], FdtKind>
    requires { at + 4 ≤ 2 ^ 32 }
    ensures inside { IfOk result (λ name. at + 4 + length name.now < length block.now) }
    ensures found { MatchResult result
        (λ name. name_at block.now at ≡ Ok name.now)
        (λ kind. name_at block.now at ≡ Err kind) }
{
    match text_from(block, at + 4) {
        Some(name) => Ok(name),
        None => Err(FdtKind::Short),
    }
}

/// The name and the value of the property whose token stands at a place.
#[tactic(auto, unfolding(crate::specs::Token::property_at))]
pub(crate) fn property_at<'a>(
    structure: &'a [u8],
    strings: &'a [u8],
    at: usize,
) -> Result<(&'a [u8], &'a [u8]), FdtKind>
    requires small { length structure.now ≤ 2 ^ 20 }
    requires near { at ≤ length structure.now }
    ensures found { MatchResult result
        (λ found.
        property_at structure.now strings.now at
        ≡ Ok (record { name = found.0.now; value = found.1.now }))
        (λ kind. property_at structure.now strings.now at ≡ Err kind) }
    ensures inside { IfOk result (λ found. at + 12 + length (found.1).now ≤ length structure.now) }
{
    if structure.len() < at + 12 {
        return Err(FdtKind::Short);
    }
    let len = word(structure, at + 4);
    if structure.len() < at + 12 + len {
        return Err(FdtKind::Short);
    }
    match text_from(strings, word(structure, at + 8)) {
        Some(name) => Ok((name, &structure[at + 12..at + 12 + len])),
        None => Err(FdtKind::BadOffset),
    }
}
