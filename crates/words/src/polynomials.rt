// The public call polynomial: a number, or the exponents of a polynomial with a colon between.
ghost use Rattle.std.specs.Prelude.{◌≡◌, ◌^◌, ◌<◌};
ghost use Rattle.words.specs.Notation.{number_in, parts, exponents_of, polynomial_of};

use super::digits::digits;
use super::numbers::number;

// The exponent that a part spells in decimal, where it is below the bound.
fn exponent(part: &[u8], bound: u64) -> Option<u64>
    ensures { result ≡ number_in 10 bound part.now }
{
    digits(10, part).filter(|value| *value < bound)
}

// The power of two with an exponent below 64.
fn power(exponent: u64) -> u64
    requires { exponent < 64 }
    ensures { result ≡ 2 ^ exponent }
{
    1u64 << exponent
}

// The sum of the powers whose exponents are the parts. Each exponent is below the one before, and the first below 64.
fn exponents(word: &[u8]) -> Option<u64>
    ensures { result ≡ exponents_of (parts word.now) }
{
    let mut sum: u64 = 0;
    let mut bound: u64 = 64;
    for part in word.split(|byte| *byte == b':') {
        let value = exponent(part, bound)?;
        sum += power(value);
        bound = value;
    }
    Some(sum)
}

// The polynomial that a word means: bit i of the number is the coefficient of x^i.
pub fn polynomial(word: &[u8]) -> Option<u64>
    ensures { result ≡ polynomial_of word.now }
{
    if word.contains(&b':') {
        return exponents(word);
    }
    number(word)
}
