//! Where the instruction behind another one stands.
ghost use Rattle.std.specs.Prelude.{◌≡◌};
ghost use Rattle.xv_isa.specs.Length.{insn_length, next_pc};

/// The bytes of the instruction that begins with the word: 4, as compressed instructions aren't
/// there (Unprivileged ISA 20191213, section 1.5).
fn insn_length(word: u32) -> u64
    ensures { result ≡ insn_length word }
{
    let _ = word;
    4
}

/// The address of the instruction behind the one at `pc` whose word is `word`, modulo 2^64.
pub fn next_pc(pc: u64, word: u32) -> u64
    ensures { result ≡ next_pc pc word }
{
    pc.wrapping_add(insn_length(word))
}
