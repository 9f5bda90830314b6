//! The words that the program is called with.
ghost use Rattle.std.specs.Prelude.{◌≡◌, ◌↔◌, IsTrue, map};
ghost use Rattle.std.specs.String.{string_bytes};
ghost use Rattle.xv_top.specs.Boot.{AreRight};

/// Whether the words after the program's name are `boot` alone.
pub fn are_right(words: &[String]) -> bool
    ensures { IsTrue result ↔ AreRight (map (λ word. string_bytes word) words.now) }
{
    match words {
        [word] => word.as_bytes() == b"boot".as_slice(),
        _ => false,
    }
}
