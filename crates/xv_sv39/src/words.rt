//! Where the entries of page tables are read.
ghost use Rattle.std.specs.Prelude.{◌≡◌, ◌<◌, ◌%◌, ◌++◌, ◌∷◌, [], ℕ, List, length};
ghost use Rattle.xv_pte.specs.Sv39.{Reader};

/// A reader of the little-endian words of 8 bytes at guest physical addresses.
pub trait Words {
    /// The word that each address has, or none. No call changes it.
    ghost table: { Self → Reader };

    /// The addresses that were read so far, in order.
    ghost addresses: { Self → List ℕ };

    /// What is known of a reader by what it was at an earlier moment. Each call keeps it.
    ghost rule: { Self → Self → Type 0 };

    /// The word at an address, which is a multiple of 8.
    fn word(&mut self, gpa: u64) -> Option<u64>
        requires room { length (addresses self.old) < 3 }
        requires aligned { gpa % 8 ≡ 0 }
        ensures word { result ≡ table self.old gpa }
        ensures table { table self.new ≡ table self.old }
        ensures addresses { addresses self.new ≡ addresses self.old ++ gpa ∷ [] }
        ensures rule { (start : Self) → rule start self.old → rule start self.new };
}
