// A row of digits in one base, decimal or hexadecimal.
ghost use Rattle.std.specs.Prelude.{◌≡◌, ◌^◌, ◌≤◌, ◌<◌};
ghost use Rattle.words.specs.Notation.{number_in};
ghost use Rattle.words.specs.Digits.{more_by};

// The value with one more digit after it, where the byte is a digit of the base and the new value has 64 bits.
fn more(base: u32, value: u64, byte: u8) -> Option<u64>
    requires { (2 ≤ base) × (base ≤ 16) }
    ensures { result ≡ more_by base value byte }
{
    let digit = char::from(byte).to_digit(base)?;
    let shifted = value.checked_mul(u64::from(base))?;
    shifted.checked_add(u64::from(digit))
}

// The number that a word spells in the base.
pub fn digits(base: u32, word: &[u8]) -> Option<u64>
    requires { (2 ≤ base) × (base ≤ 16) }
    ensures { result ≡ number_in base (2 ^ 64) word.now }
{
    if word.is_empty() {
        return None;
    }
    let mut value: u64 = 0;
    for byte in word {
        value = more(base, value, *byte)?;
    }
    Some(value)
}
