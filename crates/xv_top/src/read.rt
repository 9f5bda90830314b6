//! The script, read to its end or to the limit.
ghost use Rattle.std.specs.Prelude.{◌≡◌, ◌≤◌, ◌<◌, length, IfOk, OnOk, OnErr, IsErrOf};
ghost use Rattle.xv_base.specs.Fault.{Rose};
ghost use Rattle.xv_outside.specs.Outside.{left_after};
ghost use Rattle.xv_top.specs.Boot.{IsTextOf, ReadsAtMost, most_read};

use std::alloc::Global;
use xv_outside::Source;
use xv_script::MOST_BYTES;

/// One byte more than a script may have, so that a longer one is seen to be.
const MOST_READ: usize = MOST_BYTES + 1;

/// Bytes of one read.
const CHUNK: usize = 4096;

/// Why no script was read.
#[derive(Clone, Copy)]
pub enum ReadFault {
    Failed,
    NoMemory,
}

/// All that the source has, or its first 1,048,577 bytes.
pub fn read_script<S: Source>(alloc: Global, source: &mut S) -> Result<Vec<u8>, ReadFault>
    ensures text { IfOk result (λ text. IsTextOf (S.left source.old) text.items) }
    ensures left { OnOk result (S.left source.new ≡ left_after (S.left source.old) most_read) }
    ensures within { ReadsAtMost most_read (S.left source.old) (S.left source.new) }
    ensures failed { IsErrOf result ReadFault.Failed →
        Rose (S.faults source.old) (S.faults source.new) }
    ensures later { S.faults source.old ≤ S.faults source.new }
{
    let mut text = Vec::new(alloc);
    let mut chunk = [0; CHUNK];
    while text.len() < MOST_READ {
        let most = CHUNK.min(MOST_READ - text.len());
        let Ok(count) = source.read(&mut chunk[..most]) else {
            return Err(ReadFault::Failed);
        };
        if count == 0 {
            return Ok(text);
        }
        let Ok(()) = text.extend_from_slice(&chunk[..count]) else {
            return Err(ReadFault::NoMemory);
        };
    }
    Ok(text)
}
