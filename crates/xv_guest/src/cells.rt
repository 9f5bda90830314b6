//! The bytes of a guest's memory, put and read through its frames.
ghost use Rattle.std.specs.Prelude.{◌≡◌, ◌+◌, ◌-◌, ◌%◌, ◌^◌, ◌<◌, ◌≤◌, length};
ghost use Rattle.std.specs.Prelude.{min, is_some, true, false, None, Some, option_map};
ghost use Rattle.xv_mem.specs.Bytes.{range};
ghost use Rattle.xv_region.specs.Cell.{cell};
ghost use Rattle.xv_lone.specs.Journal.{after_load};
ghost use Rattle.xv_lone.specs.Memory.{bytes_of_spot, peeked, spot_at, spot_of, store_place};
ghost use Rattle.xv_guest.specs.Guest.{held_of, lone_of};
ghost use Rattle.xv_guest.specs.Held.{IsHeld, Within, WithinMemory, memory_of, region_bytes};
ghost use Rattle.xv_guest.specs.OwnMemory.{put_at};

use crate::Guest;
use crate::held::{Held, PAGE};
use xv_mem::HostMem;
use xv_region::Cell;

/// How many of the `left` bytes from an offset of a region on stand in one page.
fn piece_len(offset: u64, left: usize) -> usize
    ensures { result ≡ min left (4096 - offset % 4096) }
{
    left.min((PAGE - offset % PAGE) as usize)
}

impl Guest {
    /// Puts bytes into the guest's memory at a guest physical address, where also a ROM takes them.
    /// It is refused where they don't lie wholly in one region of memory or an alias.
    pub fn store(&self, mem: &mut HostMem, gpa: u64, bytes: &[u8]) -> bool
        requires held { IsHeld mem.old (held_of self.now) }
        ensures inside { result ≡ true
            → is_some (spot_at self.now.plan (length bytes.now) gpa) ≡ true }
        ensures outside { result ≡ false → spot_at self.now.plan (length bytes.now) gpa ≡ None }
        ensures untouched { result ≡ false → mem.new ≡ mem.old }
        ensures stored { lone_of self.now mem.new
            ≡ after_load self.now.plan gpa bytes.now (lone_of self.now mem.old) }
        ensures held { IsHeld mem.new (held_of self.now) }
        ensures within { Within (held_of self.now) mem.old mem.new }
    {
        self.held().store(mem, gpa, bytes)
    }

    /// Shows the bytes of the guest's memory from a guest physical address on, as many as the
    /// buffer has. It is refused where they don't lie wholly in one region of memory or an alias.
    pub fn peek(&self, mem: &HostMem, gpa: u64, buf: &mut [u8]) -> bool
        requires held { IsHeld mem.now (held_of self.now) }
        ensures bytes { result ≡ true → peeked self.now.plan (lone_of self.now mem.now).memory gpa
            (length buf.old) ≡ Some buf.new }
        ensures outside { result ≡ false → peeked self.now.plan (lone_of self.now mem.now).memory
            gpa (length buf.old) ≡ None }
        ensures untouched { result ≡ false → buf.new ≡ buf.old }
    {
        self.held().peek(mem, gpa, buf)
    }

    pub(crate) fn held(&self) -> Held<'_>
        ensures { result ≡ held_of self.now }
    {
        Held::new(self.root, self.map(), self.frames())
    }
}

impl<'a> Held<'a> {
    fn store(&self, mem: &mut HostMem, gpa: u64, bytes: &[u8]) -> bool
        requires held { IsHeld mem.old self.now }
        ensures inside { result ≡ true
            → is_some (spot_of (cell self.now.regions gpa (length bytes.now))) ≡ true }
        ensures outside { result ≡ false
            → spot_of (cell self.now.regions gpa (length bytes.now)) ≡ None }
        ensures untouched { result ≡ false → mem.new ≡ mem.old }
        ensures stored { memory_of mem.new self.now
            ≡ put_at bytes.now (memory_of mem.old self.now)
            (cell self.now.regions gpa (length bytes.now)) }
        ensures within { WithinMemory self.now mem.old mem.new }
    {
        match self.cell(gpa, bytes.len()) {
            Cell::Memory {
                region,
                offset,
                writable: _,
            } => {
                self.put_bytes(mem, region, offset, bytes);
                true
            }
            Cell::Device {
                region: _,
                offset: _,
            } => false,
            Cell::Nothing => false,
        }
    }

    pub(crate) fn peek(&self, mem: &HostMem, gpa: u64, buf: &mut [u8]) -> bool
        requires held { IsHeld mem.now self.now }
        ensures bytes { result ≡ true
            → option_map (bytes_of_spot (memory_of mem.now self.now) (length buf.old))
            (spot_of (cell self.now.regions gpa (length buf.old))) ≡ Some buf.new }
        ensures outside { result ≡ false
            → option_map (bytes_of_spot (memory_of mem.now self.now) (length buf.old))
            (spot_of (cell self.now.regions gpa (length buf.old))) ≡ None }
        ensures untouched { result ≡ false → buf.new ≡ buf.old }
    {
        match self.cell(gpa, buf.len()) {
            Cell::Memory {
                region,
                offset,
                writable: _,
            } => {
                self.read_bytes(mem, region, offset, buf);
                true
            }
            Cell::Device {
                region: _,
                offset: _,
            } => false,
            Cell::Nothing => false,
        }
    }

    /// Puts bytes into a region from an offset on, page by page.
    pub(crate) fn put_bytes(&self, mem: &mut HostMem, region: u8, offset: u64, bytes: &[u8])
        requires held { IsHeld mem.old self.now }
        requires inside { offset + length bytes.now
            ≤ length (region_bytes mem.old self.now region) }
        requires small { offset + length bytes.now < 2 ^ 64 }
        ensures memory { memory_of mem.new self.now
            ≡ store_place (memory_of mem.old self.now)
            (record { region = region; offset = offset }) bytes.now }
        ensures within { WithinMemory self.now mem.old mem.new }
    {
        let mut done = 0;
        while done < bytes.len() {
            let at = offset + done as u64;
            let count = piece_len(at, bytes.len() - done);
            self.put_piece(mem, region, at, &bytes[done..done + count]);
            done += count;
        }
    }

    /// Puts some bytes into one page of a region.
    fn put_piece(&self, mem: &mut HostMem, region: u8, offset: u64, piece: &[u8])
        requires held { IsHeld mem.old self.now }
        requires inside { offset < length (region_bytes mem.old self.now region) }
        requires fits { offset % 4096 + length piece.now ≤ 4096 }
        ensures memory { memory_of mem.new self.now
            ≡ store_place (memory_of mem.old self.now)
            (record { region = region; offset = offset }) piece.now }
        ensures within { WithinMemory self.now mem.old mem.new }
    {
        let at = self.host_at(mem, region, offset);
        mem.copy_in(at, piece);
    }

    /// Reads the bytes of a region from an offset on, page by page.
    fn read_bytes(&self, mem: &HostMem, region: u8, offset: u64, buf: &mut [u8])
        requires held { IsHeld mem.now self.now }
        requires inside { offset + length buf.old
            ≤ length (region_bytes mem.now self.now region) }
        requires small { offset + length buf.old < 2 ^ 64 }
        ensures { buf.new
            ≡ range (region_bytes mem.now self.now region) offset (length buf.old) }
    {
        let mut done = 0;
        while done < buf.len() {
            let at = offset + done as u64;
            let count = piece_len(at, buf.len() - done);
            let piece = self.piece(mem, region, at, count);
            buf[done..done + count].copy_from_slice(piece);
            done += count;
        }
    }

    /// The bytes from an offset of a region on that stand in one page.
    fn piece<'b>(&self, mem: &'b HostMem, region: u8, offset: u64, len: usize) -> &'b [u8]
        requires held { IsHeld mem.now self.now }
        requires inside { offset < length (region_bytes mem.now self.now region) }
        requires fits { offset % 4096 + len ≤ 4096 }
        ensures { result.now
            ≡ range (region_bytes mem.now self.now region) offset len }
    {
        mem.lend(self.host_at(mem, region, offset), len)
    }
}
