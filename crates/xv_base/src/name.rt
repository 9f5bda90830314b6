//! The names that a script may give: of a guest, of a device's node, and of a file.
ghost use Rattle.std.specs.Prelude.{◌≡◌, Some, None, if◌then◌else◌, IsTrue, nat_le, length};
ghost use Rattle.std.specs.List.{list_all};
ghost use Rattle.std.specs.Char.{is_ascii_graphic};
ghost use Rattle.xv_base.specs.Name.{is_guest_byte, is_dev_byte, is_word, has_length};
ghost use Rattle.xv_base.specs.Name.{is_guest_name, is_dev_name, is_file_name};

use crate::short::Short;
use std::marker::Model;

/// The name of a guest, seen by contracts as its bytes: 1 to 31 of them, a letter first, then
/// letters, digits, `_` or `-`.
#[derive(Clone, Copy, Debug, PartialEq, Eq, Hash)]
pub struct GuestName {
    short: Short<31>,
}

impl Model for GuestName {
    ghost use Rattle.std.specs.Prelude.{ℕ, List, IsTrue};
    ghost use Rattle.xv_base.specs.Name.{is_guest_name};

    ghost Value = { List ℕ };

    ghost view = { λ name. name.short };

    ghost invariant = { λ name. IsTrue (is_guest_name name.short) };

    ghost inverse = { λ bytes. record { short = bytes } };
}

impl GuestName {
    /// The bytes of the name.
    pub fn bytes(&self) -> &[u8]
        ensures value { result.now ≡ self.now }
        ensures grammar { IsTrue (is_guest_name self.now) }
    {
        self.short.bytes()
    }
}

/// The name of a device's node, seen by contracts as its bytes: 1 to 63 of 0x21 to 0x7E, without
/// `/`.
#[derive(Clone, Copy, Debug, PartialEq, Eq, Hash)]
pub struct DevName {
    short: Short<63>,
}

impl Model for DevName {
    ghost use Rattle.std.specs.Prelude.{ℕ, List, IsTrue};
    ghost use Rattle.xv_base.specs.Name.{is_dev_name};

    ghost Value = { List ℕ };

    ghost view = { λ name. name.short };

    ghost invariant = { λ name. IsTrue (is_dev_name name.short) };

    ghost inverse = { λ bytes. record { short = bytes } };
}

impl DevName {
    /// The bytes of the name.
    pub fn bytes(&self) -> &[u8]
        ensures value { result.now ≡ self.now }
        ensures grammar { IsTrue (is_dev_name self.now) }
    {
        self.short.bytes()
    }
}

/// The name of a file, seen by contracts as its bytes: 1 to 255 of 0x21 to 0x7E.
#[derive(Clone, Copy, Debug, PartialEq, Eq, Hash)]
pub struct FileName {
    short: Short<255>,
}

impl Model for FileName {
    ghost use Rattle.std.specs.Prelude.{ℕ, List, IsTrue};
    ghost use Rattle.xv_base.specs.Name.{is_file_name};

    ghost Value = { List ℕ };

    ghost view = { λ name. name.short };

    ghost invariant = { λ name. IsTrue (is_file_name name.short) };

    ghost inverse = { λ bytes. record { short = bytes } };
}

impl FileName {
    /// The bytes of the name.
    pub fn bytes(&self) -> &[u8]
        ensures value { result.now ≡ self.now }
        ensures grammar { IsTrue (is_file_name self.now) }
    {
        self.short.bytes()
    }

    /// The same bytes as a text.
    pub fn text(&self) -> &str
        ensures { result.now ≡ self.now }
    {
        let Ok(text) = str::from_utf8(self.bytes()) else {
            unreachable!("the bytes of a file's name are below 128");
        };
        text
    }
}

/// The guest's name that the bytes are, or None where they are none.
#[tactic(auto, using(crate::proofs::NameLemmas::guest_names))]
pub fn name_of(bytes: &[u8]) -> Option<GuestName>
    ensures { result ≡ (if is_guest_name bytes.now then Some bytes.now else None) }
{
    if is_guest_name(bytes) {
        Some(GuestName {
            short: Short::of(bytes),
        })
    } else {
        None
    }
}

/// The name of a device's node that the bytes are, or None where they are none.
#[tactic(auto, using(crate::proofs::NameLemmas::dev_names))]
pub fn dev_name_of(bytes: &[u8]) -> Option<DevName>
    ensures { result ≡ (if is_dev_name bytes.now then Some bytes.now else None) }
{
    if is_dev_name(bytes) {
        Some(DevName {
            short: Short::of(bytes),
        })
    } else {
        None
    }
}

/// The file's name that the bytes are, or None where they are none.
#[tactic(auto, using(crate::proofs::NameLemmas::file_names))]
pub fn file_name_of(bytes: &[u8]) -> Option<FileName>
    ensures { result ≡ (if is_file_name bytes.now then Some bytes.now else None) }
{
    if is_file_name(bytes) {
        Some(FileName {
            short: Short::of(bytes),
        })
    } else {
        None
    }
}

#[tactic(auto, unfolding(crate::specs::Name::is_guest_name))]
fn is_guest_name(bytes: &[u8]) -> bool
    ensures { result ≡ is_guest_name bytes.now }
{
    is_word(bytes) && is_at_most(bytes, 31)
}

#[tactic(auto, unfolding(crate::specs::Name::is_dev_name))]
fn is_dev_name(bytes: &[u8]) -> bool
    ensures { result ≡ is_dev_name bytes.now }
{
    has_length(bytes, 63) && are_dev_bytes(bytes)
}

#[tactic(auto, unfolding(crate::specs::Name::is_file_name))]
fn is_file_name(bytes: &[u8]) -> bool
    ensures { result ≡ is_file_name bytes.now }
{
    has_length(bytes, 255) && are_file_bytes(bytes)
}

#[tactic(auto, using(std::proofs::lemmas::Bool::Decides::nat_tests))]
fn is_at_most(bytes: &[u8], most: usize) -> bool
    ensures { result ≡ nat_le (length bytes.now) most }
{
    bytes.len() <= most
}

pub(crate) fn has_length(bytes: &[u8], most: usize) -> bool
    ensures { result ≡ has_length most bytes.now }
{
    1 <= bytes.len() && bytes.len() <= most
}

fn is_word(bytes: &[u8]) -> bool
    ensures { result ≡ is_word bytes.now }
{
    match bytes {
        [] => false,
        [first, others @ ..] => first.is_ascii_alphabetic() && are_guest_bytes(others),
    }
}

fn are_guest_bytes(bytes: &[u8]) -> bool
    ensures { result ≡ list_all is_guest_byte bytes.now }
{
    bytes.iter().all(|byte| is_guest_byte(*byte))
}

fn are_dev_bytes(bytes: &[u8]) -> bool
    ensures { result ≡ list_all is_dev_byte bytes.now }
{
    bytes.iter().all(|byte| is_dev_byte(*byte))
}

fn are_file_bytes(bytes: &[u8]) -> bool
    ensures { result ≡ list_all is_ascii_graphic bytes.now }
{
    bytes.iter().all(|byte| byte.is_ascii_graphic())
}

fn is_guest_byte(byte: u8) -> bool
    ensures { result ≡ is_guest_byte byte }
{
    byte.is_ascii_alphanumeric() || byte == b'_' || byte == b'-'
}

fn is_dev_byte(byte: u8) -> bool
    ensures { result ≡ is_dev_byte byte }
{
    byte.is_ascii_graphic() && byte != b'/'
}
