//! The fields of a line.
ghost use Rattle.std.specs.Prelude.{◌≡◌, position};
ghost use Rattle.xv_script.specs.Field.{guest_field, dev_field, is_slash, port_field, file_field};
ghost use Rattle.xv_script.specs.Field.{number_field, range_field, hex_field};
ghost use Rattle.xv_script.specs.Progress.{GivesInLine};

use crate::fault::{LineFault, ScriptKind};
use std::alloc::Global;
use xv_base::{
    Bytes, DevName, FileName, GuestName, dev_name_of, file_name_of, hex_pairs_of, name_of,
    number_of,
};

/// A guest's name.
#[tactic(auto, unfolding(crate::specs::Field::guest_field))]
pub(crate) fn guest_field(word: &[u8]) -> Result<GuestName, ScriptKind>
    ensures { result ≡ guest_field word.now }
{
    name_of(word).ok_or(ScriptKind::Name)
}

/// A file's name.
#[tactic(auto, unfolding(crate::specs::Field::file_field))]
pub(crate) fn file_field(word: &[u8]) -> Result<FileName, ScriptKind>
    ensures { result ≡ file_field word.now }
{
    file_name_of(word).ok_or(ScriptKind::Name)
}

/// The names of a guest and of its device, cut at the first `/`.
#[tactic(auto, unfolding(crate::specs::Field::port_field))]
pub(crate) fn port_field(word: &[u8]) -> Result<(GuestName, DevName), ScriptKind>
    ensures { result ≡ port_field word.now }
{
    let slash = first_slash(word).ok_or(ScriptKind::Name)?;
    let guest = guest_field(&word[..slash])?;
    let dev = dev_field(&word[slash + 1..])?;
    Ok((guest, dev))
}

/// The name of a device's node.
#[tactic(auto, unfolding(crate::specs::Field::dev_field))]
fn dev_field(word: &[u8]) -> Result<DevName, ScriptKind>
    ensures { result ≡ dev_field word.now }
{
    dev_name_of(word).ok_or(ScriptKind::Name)
}

/// The place of the first `/`.
fn first_slash(word: &[u8]) -> Option<usize>
    ensures { result ≡ position is_slash word.now }
{
    word.iter().position(|byte| *byte == b'/')
}

/// A number below 2^64.
#[tactic(auto, unfolding(crate::specs::Field::number_field))]
pub(crate) fn number_field(word: &[u8]) -> Result<u64, ScriptKind>
    ensures { result ≡ number_field word.now }
{
    number_of(word).ok_or(ScriptKind::Number)
}

/// A number from 1 to the greatest.
#[tactic(auto, unfolding(crate::specs::Field::range_field))]
pub(crate) fn range_field(most: u32, word: &[u8]) -> Result<u32, ScriptKind>
    ensures { result ≡ range_field 1 most word.now }
{
    let value = number_field(word)?;
    if value < 1 || u64::from(most) < value {
        return Err(ScriptKind::Range);
    }
    Ok(value as u32)
}

/// Bytes as pairs of hexadecimal digits.
#[tactic(auto, unfolding(crate::specs::Field::hex_field))]
pub(crate) fn hex_field(alloc: Global, word: &[u8]) -> Result<Bytes, LineFault>
    ensures { GivesInLine result (hex_field word.now) }
{
    match hex_pairs_of(alloc, word)? {
        Some(bytes) => Ok(bytes),
        None => Err(LineFault::Kind(ScriptKind::Hex)),
    }
}
