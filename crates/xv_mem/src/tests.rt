ghost use Rattle.std.specs.Prelude.{◌≡◌, ◌<◌, ◌≤◌, length};

use crate::{HostMem, NoMemory, Steps};
use std::alloc::Global;
use std::marker::Brand;
use std::sync::ledger::{Blank, Ledger};
use std::test::Fail;

fn write_each<L: Ledger>(memory: &mut HostMem, steps: &mut Steps<L>)
    requires { 8192 ≤ length memory.old }
    ensures { length memory.new ≡ length memory.old }
{
    memory.write8(1, 0xa1, steps);
    memory.write16(2, 0xb2c3, steps);
    memory.write32(4, 0xd4e5_f607, steps);
    memory.write64(4088, 0x0102_0304_0506_0708, steps);
    memory.copy_in(4096, &[1, 2, 3]);
}

fn read_each<L: Ledger>(memory: &HostMem, steps: &mut Steps<L>) -> [u64; 6]
    requires { 8192 ≤ length memory.now }
{
    [
        memory.read8(1, steps) as u64,
        memory.read16(2, steps) as u64,
        memory.read32(4, steps) as u64,
        memory.read64(0, steps),
        memory.read64(4088, steps),
        memory.read64(4096, steps),
    ]
}

// What is read after each write, and after the second frame is made zeros.
fn words<L: Ledger>(alloc: Global, frames: u32, blank: Blank) -> Result<[u64; 7], NoMemory>
    requires frames { 2 ≤ frames }
    requires name { blank.name ≡ L.name }
    requires parts { blank.parts ≡ L.parts }
    requires some { 0 < blank.parts }
{
    let mut steps = Steps::<L>::open(blank);
    let mut memory = HostMem::zeroed(alloc, frames)?;
    write_each(&mut memory, &mut steps);
    let [byte, half, word, first, last, second] = read_each(&memory, &mut steps);
    memory.zero_frame(1);
    let [_, _, _, _, _, zeros] = read_each(&memory, &mut steps);
    Ok([byte, half, word, first, last, second, zeros])
}

#[test]
fn words_of_two_frames(rt: HostRuntime) -> Result<(), Fail> {
    let words = words::<Brand>(rt.alloc(), 2, Blank::new(1))?;
    let rows = [
        0xa1,
        0xb2c3,
        0xd4e5_f607,
        0xd4e5_f607_b2c3_a100,
        0x0102_0304_0506_0708,
        0x0003_0201,
        0,
    ];
    assert_eq!(rt; words, rows);
    assert_eq!(rt; HostMem::empty().frames(), 0);
    Ok(())
}
