//! The header of a file, and its memory reservation block.
ghost use Rattle.std.specs.Prelude.{◌≡◌, ◌+◌, ◌*◌, ◌-◌, ◌≤◌, ◌<◌, ◌^◌, IfOk, length, drop};
ghost use Rattle.byteorder.specs.Endian.{big_number};
ghost use Rattle.xv_fdt.specs.Fault.{Gives};
ghost use Rattle.xv_fdt.specs.Header as headers;

use crate::fault::{FdtFault, FdtKind, fault};
use byteorder::{BigEndian, ByteOrder};

/// The greatest length of a file, in bytes.
const LIMIT: usize = 1 << 20;

/// The length of a header, in bytes.
const HEADER_LEN: usize = 40;

/// Where the structure block and the strings block lie in a file, in bytes.
#[derive(Clone, Copy)]
pub(crate) struct Layout {
    pub structure: usize,
    pub structure_size: usize,
    pub strings: usize,
    pub strings_size: usize,
}

/// The big-endian number in the 4 bytes from a place on.
pub(crate) fn word(bytes: &[u8], at: usize) -> usize
    requires { at + 4 ≤ length bytes.now }
    ensures value { result ≡ headers.word bytes.now at }
    ensures small { result < 2 ^ 32 }
{
    BigEndian::read_u32(&bytes[at..]) as usize
}

fn is_zero_pair(bytes: &[u8], at: usize) -> bool
    requires { at + 16 ≤ length bytes.now }
    ensures { result ≡ headers.is_zero_pair bytes.now at }
{
    BigEndian::read_u64(&bytes[at..]) == 0 && BigEndian::read_u64(&bytes[at + 8..]) == 0
}

fn has_zero_pair(bytes: &[u8], from: usize, count: usize) -> bool
    requires { 16 * count ≤ length bytes.now - from }
    ensures { result ≡ headers.has_zero_pair count bytes.now from }
{
    let mut at = from;
    for _ in 0..count {
        if is_zero_pair(bytes, at) {
            return true;
        }
        at += 16;
    }
    false
}

fn has_reservations_end(bytes: &[u8]) -> bool
    requires least { 40 ≤ length bytes.now }
    requires whole { headers.totalsize bytes.now ≤ length bytes.now }
    ensures { result ≡ headers.reservations_end bytes.now }
{
    let from = word(bytes, 16);
    let count = word(bytes, 4).saturating_sub(from) / 16;
    has_zero_pair(bytes, from, count)
}

/// The first rule of the file as a whole that it breaks, if there is one.
#[tactic(auto, unfolding(crate::specs::Header::keeps))]
fn check_file(bytes: &[u8]) -> Result<(), FdtFault>
    ensures exact { Gives (λ _. tt) result (headers.keeps (headers.file_rules bytes.now)) }
    ensures small { IfOk result (λ _. length bytes.now ≤ 2 ^ 20) }
    ensures least { IfOk result (λ _. 40 ≤ length bytes.now) }
    ensures whole { IfOk result (λ _. headers.totalsize bytes.now ≤ length bytes.now) }
{
    if bytes.len() > LIMIT {
        return Err(fault(FdtKind::TooBig, 0));
    }
    if bytes.len() < HEADER_LEN {
        return Err(fault(FdtKind::Short, bytes.len()));
    }
    if word(bytes, 0) != 0xd00dfeed {
        return Err(fault(FdtKind::BadMagic, 0));
    }
    let totalsize = word(bytes, 4);
    if totalsize < HEADER_LEN || totalsize > bytes.len() {
        return Err(fault(FdtKind::Short, 4));
    }
    if word(bytes, 20) < 17 {
        return Err(fault(FdtKind::BadVersion, 20));
    }
    if word(bytes, 24) > 17 {
        return Err(fault(FdtKind::BadVersion, 24));
    }
    Ok(())
}

/// The first rule of its blocks that a file breaks, if there is one.
#[tactic(auto, unfolding(crate::specs::Header::keeps))]
fn check_blocks(bytes: &[u8]) -> Result<(), FdtFault>
    requires least { 40 ≤ length bytes.now }
    requires whole { headers.totalsize bytes.now ≤ length bytes.now }
    ensures exact { Gives (λ _. tt) result (headers.keeps (headers.block_rules bytes.now)) }
    ensures structure { IfOk result (λ _.
        headers.off_dt_struct bytes.now + headers.size_dt_struct bytes.now ≤ length bytes.now) }
    ensures strings { IfOk result (λ _.
        headers.off_dt_strings bytes.now + headers.size_dt_strings bytes.now ≤ length bytes.now) }
{
    let totalsize = word(bytes, 4);
    let structure = word(bytes, 8);
    if structure % 4 != 0 || structure < HEADER_LEN || structure + word(bytes, 36) > totalsize {
        return Err(fault(FdtKind::BadOffset, 8));
    }
    if word(bytes, 36) % 4 != 0 {
        return Err(fault(FdtKind::BadOffset, 36));
    }
    if word(bytes, 12) + word(bytes, 32) > totalsize {
        return Err(fault(FdtKind::BadOffset, 12));
    }
    if word(bytes, 16) % 8 != 0 || !has_reservations_end(bytes) {
        return Err(fault(FdtKind::BadOffset, 16));
    }
    Ok(())
}

/// Where the blocks of a file lie, or the first rule of the header that the file breaks.
#[tactic(auto, unfolding(crate::specs::Header::header))]
pub(crate) fn header(bytes: &[u8]) -> Result<Layout, FdtFault>
    ensures exact { Gives (λ layout. layout) result (headers.header bytes.now) }
    ensures small { IfOk result (λ _. length bytes.now ≤ 2 ^ 20) }
    ensures structure { IfOk result (λ layout.
        layout.structure + layout.structure_size ≤ length bytes.now) }
    ensures strings { IfOk result (λ layout.
        layout.strings + layout.strings_size ≤ length bytes.now) }
{
    check_file(bytes)?;
    check_blocks(bytes)?;
    Ok(Layout {
        structure: word(bytes, 8),
        structure_size: word(bytes, 36),
        strings: word(bytes, 12),
        strings_size: word(bytes, 32),
    })
}
