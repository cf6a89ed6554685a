// The public call number: decimal, or hexadecimal after 0x.
ghost use Rattle.std.specs.Prelude.{◌≡◌};
ghost use Rattle.words.specs.Notation.{number_of};

use super::digits::digits;

// The number that a word means, in decimal or in hexadecimal.
pub fn number(word: &[u8]) -> Option<u64>
    ensures { result ≡ number_of word.now }
{
    match word.strip_prefix(b"0x") {
        Some(hexadecimal) => digits(16, hexadecimal),
        None => digits(10, word),
    }
}
