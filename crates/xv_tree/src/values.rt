//! What the values of properties say (Devicetree Specification v0.4, section 2.2.4).
ghost use Rattle.std.specs.Prelude.{◌≡◌, ◌<◌, IfSome, length, option_copied};
ghost use Rattle.std.specs.List.{position};
ghost use Rattle.std.specs.Int.{w32, w64, from_be_bytes};
ghost use Rattle.xv_tree.specs.Values.{is_zero, number, number_of, text, value_of, word};

use xv_fdt::Prop;

/// The value of the property of that name.
pub(crate) fn value_of<'a>(props: &'a [Prop], name: &[u8]) -> Option<&'a [u8]>
    ensures value { option_copied result ≡ value_of name.now props.now }
{
    for prop in props {
        if prop.name.bytes() == name {
            return Some(&prop.value);
        }
    }
    None
}

/// The number that the property of that name holds.
#[tactic(auto, unfolding(crate::specs::Values::number_of))]
pub(crate) fn number_of(props: &[Prop], name: &[u8]) -> Option<u64>
    ensures number { result ≡ number_of name.now props.now }
{
    match value_of(props, name) {
        Some(value) => number(value),
        None => None,
    }
}

/// A big-endian number of 32 or of 64 bits.
fn number(value: &[u8]) -> Option<u64>
    ensures { result ≡ number value.now }
{
    if value.len() == 4 {
        Some(u64::from(word_of(value)))
    } else if value.len() == 8 {
        Some(double_of(value))
    } else {
        None
    }
}

/// A big-endian number of 32 bits.
pub(crate) fn word(value: &[u8]) -> Option<u32>
    ensures { result ≡ word value.now }
{
    if value.len() == 4 {
        Some(word_of(value))
    } else {
        None
    }
}

/// The big-endian number of 4 bytes.
pub(crate) fn word_of(value: &[u8]) -> u32
    requires { length value.now ≡ 4 }
    ensures { result ≡ from_be_bytes w32 value.now }
{
    let mut bytes = [0; 4];
    bytes.copy_from_slice(value);
    u32::from_be_bytes(bytes)
}

/// The big-endian number of 8 bytes.
fn double_of(value: &[u8]) -> u64
    requires { length value.now ≡ 8 }
    ensures { result ≡ from_be_bytes w64 value.now }
{
    let mut bytes = [0; 8];
    bytes.copy_from_slice(value);
    u64::from_be_bytes(bytes)
}

/// The bytes up to the first 0, or all.
pub(crate) fn text(value: &[u8]) -> &[u8]
    ensures { result.now ≡ text value.now }
{
    match zero_place(value) {
        Some(len) => &value[..len],
        None => value,
    }
}

/// The place of the first 0.
fn zero_place(value: &[u8]) -> Option<usize>
    ensures place { result ≡ position is_zero value.now }
    ensures inside { IfSome result (λ place. place < length value.now) }
{
    value.iter().position(|byte| *byte == 0)
}
