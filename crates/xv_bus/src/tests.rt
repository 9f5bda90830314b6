//! A device that reads and writes the guest's memory in one access.
ghost use Rattle.std.specs.Prelude.{◌≡◌, ◌+◌, ◌≤◌, ◌∷◌, [], nat_le, if◌then◌else◌, true, Some};
ghost use Rattle.std.specs.Prelude.{None, length};
ghost use Rattle.xv_bus.specs.Memory.{overwritten};

use crate::*;
use std::test::Fail;

/// One region of 16 bytes at 0.
#[derive(Drop)]
struct Ram {
    bytes: [u8; 16],
}

impl GuestMem for Ram {
    ghost flat = { λ ram. record {
      find = λ gpa len. if nat_le (gpa + len) 16
          then Some (record { region = 0; offset = gpa; writable = true })
          else None;
      cells = ram.bytes ∷ [];
    } };

    ghost Rest = { Unit {0} };

    ghost rest = { λ ram. tt };

    #[tactic(auto, unfolding(crate::specs::Memory::bytes_at))]
    fn load(&mut self, gpa: u64, buf: &mut [u8]) -> bool {
        if !is_inside(gpa, buf.len()) {
            return false;
        }
        let at = gpa as usize;
        buf.copy_from_slice(&self.bytes[at..at + buf.len()]);
        true
    }

    #[tactic(auto, unfolding(crate::specs::Memory::stored))]
    fn store(&mut self, gpa: u64, bytes: &[u8]) -> bool {
        if !is_inside(gpa, bytes.len()) {
            return false;
        }
        overwrite(&mut self.bytes, gpa as usize, bytes);
        true
    }
}

fn is_inside(gpa: u64, len: usize) -> bool
    ensures { result ≡ nat_le (gpa + len) 16 }
{
    gpa <= 16 && len <= 16 - gpa as usize
}

fn overwrite(bytes: &mut [u8], at: usize, piece: &[u8])
    requires { at + length piece.now ≤ length bytes.old }
    ensures { bytes.new ≡ overwritten bytes.old at piece.now }
{
    bytes[at..at + piece.len()].copy_from_slice(piece);
}

/// A device that copies the four bytes at 0 to any place, by one store.
#[derive(Drop)]
struct Copier {
    is_broken: bool,
}

impl Device for Copier {
    ghost use Rattle.std.specs.Prelude.{true, false, if◌then◌else◌};
    ghost use Rattle.std.specs.Prelude.{is_some, unwrap_or, option_and_then};
    ghost use Rattle.xv_bus.specs.Memory.{bytes_at, stored};
    ghost use Rattle.xv_bus.specs.declared.access.Outcome.TheVariants.{Done};

    ghost accessed = { λ copier flat at access.
        let after = option_and_then (stored flat at) (bytes_at flat 0 4) in
        record {
          device = record { is_broken = if is_some after then copier.is_broken else true };
          cells = unwrap_or after flat.cells;
          outcome = Done;
        } };

    ghost is_up = { λ copier. copier.is_broken };

    ghost after_reset = { λ copier. record { is_broken = false } };

    fn access<M: GuestMem>(&mut self, at: u64, _access: Access, mem: &mut M) -> Outcome {
        let mut piece = [0; 4];
        if !mem.load(0, &mut piece) || !mem.store(at, &piece) {
            self.is_broken = true;
        }
        Outcome::Done
    }

    fn line(&self) -> bool {
        self.is_broken
    }

    fn reset(&mut self) {
        self.is_broken = false;
    }
}

#[test]
fn copies_in_one_access(rt: HostRuntime) -> Result<(), Fail> {
    let mut ram = Ram {
        bytes: [1, 2, 3, 4, 0, 0, 0, 0, 0, 0, 0, 0, 0, 0, 0, 0],
    };
    let mut copier = Copier { is_broken: false };
    assert_eq!(rt;
        copier.access(9, Access::Load(Width::W1), &mut ram),
        Outcome::Done
    );
    assert_eq!(rt; ram.bytes, [1, 2, 3, 4, 0, 0, 0, 0, 0, 1, 2, 3, 4, 0, 0, 0]);
    assert!(rt; !copier.line());
    let _ = copier.access(13, Access::Load(Width::W1), &mut ram);
    assert_eq!(rt; ram.bytes, [1, 2, 3, 4, 0, 0, 0, 0, 0, 1, 2, 3, 4, 0, 0, 0]);
    assert!(rt; copier.line());
    copier.reset();
    assert!(rt; !copier.line());
    Ok(())
}
