//! The printer: what is printed of one answer, in room for the longest.
ghost use Rattle.std.specs.Prelude.{◌≡◌, ℕ, ◌+◌, ◌*◌, ◌≤◌, List, [], ◌++◌, length, decimal, IfOk};
ghost use Rattle.std.specs.Prelude.{vec_len, vec_capacity};
ghost use Rattle.xv_base.specs.Text.{hex16, hex_bytes};
ghost use Rattle.xv_print.specs.Escape.{is_plain, escape, escaped};

use crate::digits::{sixteen_digits, two_digits};
use itoa::Buffer;
use std::alloc::Global;
use std::marker::Model;
use xv_base::NoMemory;

/// The most bytes that one answer has.
pub const ROOM: usize = 300_000;

/// What is printed of one answer, seen by contracts as its bytes.
#[derive(Drop)]
pub struct Printer {
    printed: Vec<u8>,
}

impl Model for Printer {
    ghost use Rattle.std.specs.Prelude.{ℕ, List, ◌≤◌, vec_len, vec_capacity};
    ghost use Rattle.xv_print.specs.declared.printer.TheConstants.{ROOM};

    ghost Value = { List ℕ };

    ghost view = { λ p. p.printed.items };

    ghost invariant = { λ p. (ROOM ≤ vec_capacity p.printed) × (vec_len p.printed ≤ ROOM) };
}

impl Printer {
    /// An empty printer with room for one answer. No other call takes memory.
    pub fn new(alloc: Global) -> Result<Printer, NoMemory>
        ensures { IfOk result (λ printer. printer ≡ []) }
    {
        match Vec::with_capacity(alloc, ROOM) {
            Ok(printed) => Ok(Printer { printed }),
            Err(_) => Err(NoMemory),
        }
    }

    /// Takes back all that was printed.
    pub fn clear(&mut self)
        ensures { self.new ≡ [] }
    {
        self.printed.clear();
    }

    /// What was printed so far.
    pub fn bytes(&self) -> &[u8]
        ensures printed { result.now ≡ self.now }
        ensures within { length self.now ≤ ROOM }
    {
        self.printed.as_slice()
    }

    /// Prints the bytes as they are.
    pub fn text(&mut self, piece: &[u8])
        requires { length self.old + length piece.now ≤ ROOM }
        ensures printed { self.new ≡ self.old ++ piece.now }
        ensures longer { length self.new ≡ length self.old + length piece.now }
    {
        let _ = self.printed.extend_from_slice(piece);
    }

    /// Prints the number in decimal, without leading zeros.
    pub fn number(&mut self, value: u64)
        requires { length self.old + 20 ≤ ROOM }
        ensures printed { self.new ≡ self.old ++ decimal value }
        ensures longer { length self.new ≤ length self.old + 20 }
    {
        let mut digits = Buffer::new();
        self.text(digits.format(value).as_bytes());
    }

    /// Prints the number as sixteen lower-case hexadecimal digits.
    pub fn hex16(&mut self, value: u64)
        requires { length self.old + 16 ≤ ROOM }
        ensures printed { self.new ≡ self.old ++ hex16 value }
        ensures longer { length self.new ≡ length self.old + 16 }
    {
        self.text(&sixteen_digits(value));
    }

    /// Prints the bytes as two lower-case hexadecimal digits each.
    #[tactic(auto, unfolding(xv_base::specs::Text::hex_bytes))]
    pub fn hex(&mut self, bytes: &[u8])
        requires { length self.old + 2 * length bytes.now ≤ ROOM }
        ensures printed { self.new ≡ self.old ++ hex_bytes bytes.now }
        ensures longer { length self.new ≡ length self.old + 2 * length bytes.now }
    {
        for byte in bytes {
            self.text(&two_digits(*byte));
        }
    }

    /// Prints a byte of 0x20 to 0x7E but the backslash as it is, and every other as a backslash,
    /// `x` and two lower-case hexadecimal digits.
    #[tactic(auto, unfolding(crate::specs::Escape::escaped))]
    pub fn escaped(&mut self, byte: u8)
        requires { length self.old + 4 ≤ ROOM }
        ensures printed { self.new ≡ self.old ++ escaped byte }
        ensures longer { length self.new ≤ length self.old + 4 }
    {
        if is_plain(byte) {
            self.text(&[byte]);
        } else {
            self.escape(byte);
        }
    }

    /// Prints a backslash, `x` and the byte's two digits.
    fn escape(&mut self, byte: u8)
        requires { length self.old + 4 ≤ ROOM }
        ensures printed { self.new ≡ self.old ++ escape byte }
        ensures longer { length self.new ≡ length self.old + 4 }
    {
        let [high, low] = two_digits(byte);
        self.text(&[b'\\', b'x', high, low]);
    }
}

fn is_plain(byte: u8) -> bool
    ensures { result ≡ is_plain byte }
{
    0x20 <= byte && byte <= 0x7E && byte != b'\\'
}
