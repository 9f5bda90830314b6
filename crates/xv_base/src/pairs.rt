//! Bytes that a script gives as pairs of hexadecimal digits.
ghost use Rattle.std.specs.Prelude.{◌≡◌, IfOk};
ghost use Rattle.xv_base.specs.Text.{hex_pairs};

use crate::NoMemory;
use hex::FromHexError;
use std::alloc::Global;
use std::marker::Model;

/// Bytes of the heap, seen by contracts as the list of them.
#[derive(Debug, Drop)]
pub struct Bytes(pub Vec<u8>);

impl Model for Bytes {
    ghost use Rattle.std.specs.Prelude.{ℕ, List};

    ghost Value = { List ℕ };

    ghost view = { λ bytes. bytes.0.items };
}

/// The bytes that one pair or more of hexadecimal digits of either case write, or None where the
/// text is none of such pairs.
pub fn hex_pairs_of(alloc: Global, text: &[u8]) -> Result<Option<Bytes>, NoMemory>
    ensures { IfOk result (λ bytes. bytes ≡ hex_pairs text.now) }
{
    if text.is_empty() {
        return Ok(None);
    }
    match hex::decode(alloc, text) {
        Ok(bytes) => Ok(Some(Bytes(bytes))),
        Err(error) => match error {
            FromHexError::OutOfMemory => Err(NoMemory),
            _ => Ok(None),
        },
    }
}
