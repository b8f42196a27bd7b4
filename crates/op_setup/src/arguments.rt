//! Words of the command line.
ghost use Rattle.std.specs.Prelude.{◌≡◌, string_bytes};

/// The bytes of a word.
pub fn bytes(word: &String) -> &[u8]
    ensures { result.now ≡ string_bytes word.now }
{
    word.as_str().as_bytes()
}
