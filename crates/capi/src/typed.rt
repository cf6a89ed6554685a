// What a typed word means, for callers that read numbers as the command line does. These two refuse nothing: a word has a number, or it is
// unclear.
ghost use Rattle.std.specs.Prelude.{◌≡◌};
ghost use Rattle.words.specs.Notation.{number_of, polynomial_of};
ghost use Rattle.capi.specs.Answers.{desk_word};

use super::answer::DeskWord;

// The number that a word means, in decimal or in hexadecimal.
#[unsafe(no_mangle)]
pub extern "C" fn desk_number_of(word: &[u8]) -> DeskWord
    ensures { result ≡ desk_word (number_of word.now) }
{
    DeskWord::from(words::number(word))
}

// The polynomial that a word means: a number, or falling exponents.
#[unsafe(no_mangle)]
pub extern "C" fn desk_polynomial_of(word: &[u8]) -> DeskWord
    ensures { result ≡ desk_word (polynomial_of word.now) }
{
    DeskWord::from(words::polynomial(word))
}
