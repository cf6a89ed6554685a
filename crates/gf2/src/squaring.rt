// Squaring: the bytes of the operand are spread through a table, and the spread is reduced. It has twice as many coefficients as the
// operand, so it stands in two words: what the halves of the operand spread to.
ghost use Rattle.std.specs.Prelude.{◌≡◌, ◌^◌, ◌<◌};
ghost use Rattle.gf2.specs.Poly.{spread, mul_mod, Element};

use super::division::{raised, remainder};
use super::spreading::Spread;

// 2^32: what cuts a word into halves.
const HALF: u64 = 4294967296;

// The spread of half a word, byte by byte from the highest down.
fn spread_half(table: &Spread, half: u32) -> u64
    ensures { result ≡ spread half }
{
    let mut sum: u64 = 0;
    for byte in half.to_be_bytes() {
        sum = (sum << 16) ^ table.of_byte(byte);
    }
    sum
}

// The square of a modulo f, of degree n. The high half's spread is moved up by 64 places modulo f moved up, whose top term leaves the
// word, so that it can be added to the low half's; the remainder of the sum is then that of the whole.
pub fn square(table: &Spread, f: u64, n: u32, a: u64) -> u64
    requires { Element f n a }
    ensures { result ≡ mul_mod f n a a }
{
    let low = spread_half(table, (a % HALF) as u32);
    if n <= 32 {
        return remainder(f, n, 2 * n, low);
    }
    let high = spread_half(table, (a / HALF) as u32);
    let moved = raised(f << (64 - n), 2 * n - 64, high, 64);
    remainder(f, n, 64, moved ^ low)
}
