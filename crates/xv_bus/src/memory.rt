//! The memory of a guest, as a device reaches it.
ghost use Rattle.std.specs.Prelude.{◌≡◌, ◌<◌, length, is_some, unwrap_or};
ghost use Rattle.xv_bus.specs.Memory.{Flat, after_store, bytes_at, stored};

/// The memory of one guest, by guest physical address. An access has one byte or more, and is
/// answered false, with nothing changed, where its bytes don't lie in one memory region, or where a
/// store would write ROM.
pub trait GuestMem {
    /// Which region has an address, and the bytes of the regions.
    ghost flat: { Self → Flat };

    /// What else lies behind the memory, which no access changes.
    ghost Rest: { Type 0 };

    ghost rest: { Self → Rest };

    /// Fills the buffer with the bytes from the address on.
    fn load(&mut self, gpa: u64, buf: &mut [u8]) -> bool
        requires { 0 < length buf.old }
        ensures there { result ≡ is_some (bytes_at (flat self.old) gpa (length buf.old)) }
        ensures bytes { buf.new ≡
            unwrap_or (bytes_at (flat self.old) gpa (length buf.old)) buf.old }
        ensures kept { flat self.new ≡ flat self.old }
        ensures rest { rest self.new ≡ rest self.old };

    /// Puts the bytes from the address on, and changes no other.
    fn store(&mut self, gpa: u64, bytes: &[u8]) -> bool
        requires { 0 < length bytes.now }
        ensures there { result ≡ is_some (stored (flat self.old) gpa bytes.now) }
        ensures cells { flat self.new ≡ after_store (flat self.old) gpa bytes.now }
        ensures rest { rest self.new ≡ rest self.old };
}

/// The memory of a guest that has none: no access finds its bytes.
#[derive(Drop)]
pub struct NoMem;

impl GuestMem for NoMem {
    ghost use Rattle.std.specs.Prelude.{None, []};

    ghost flat = { λ mem. record { find = λ gpa len. None; cells = [] } };

    ghost Rest = { Unit {0} };

    ghost rest = { λ mem. tt };

    #[tactic(auto, unfolding(crate::specs::Memory::bytes_at))]
    fn load(&mut self, _gpa: u64, _buf: &mut [u8]) -> bool {
        false
    }

    #[tactic(auto, unfolding(crate::specs::Memory::stored))]
    fn store(&mut self, _gpa: u64, _bytes: &[u8]) -> bool {
        false
    }
}
