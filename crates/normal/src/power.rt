// Powers of normal coordinates with exponent 2^k - 1, and the inverse (document 02, §1), through a table's byte sums: all their products take
// the same ones.
ghost use Rattle.std.specs.Prelude.{◌≡◌, ◌^◌, ◌≤◌, ◌<◌};
ghost use Rattle.normal.specs.TableProduct.{rotated_by};
ghost use Rattle.normal.specs.Powers.{power_of, inverse_of};
ghost use Rattle.normal.specs.Summed.{summed_rows, Summed};

use super::by_bytes::product_by_bytes;
use super::product::rotated;
use rows::BYTE_SUMS;

// v rotated h places.
fn rotated_by(n: u32, h: u32, v: u64) -> u64
    requires { (1 ≤ n) × (n < 64) × (v < 2 ^ n) }
    ensures { result ≡ rotated_by n h v }
{
    let mut turned = v;
    for _ in 0..h {
        turned = rotated(n, turned);
    }
    turned
}

// The power of a with exponent 2^k - 1, "made from the one for half of k, rounded down, so the work calls itself on a smaller k".
fn power_of(sums: &[u64; BYTE_SUMS], n: u32, k: u32, a: u64) -> u64
    requires { Summed n sums.now × (1 ≤ k) × (a < 2 ^ n) }
    ensures { result ≡ power_of n (summed_rows n sums.now) k a }
{
    if k == 1 {
        return a;
    }
    let h = k / 2;
    let half = power_of(sums, n, h, a);
    let even = product_by_bytes(sums, n, rotated_by(n, h, half), half);
    if k % 2 == 0 {
        return even;
    }
    product_by_bytes(sums, n, rotated(n, even), a)
}

// "The inverse is the power for n-1, rotated once".
pub fn inverse_of(sums: &[u64; BYTE_SUMS], n: u32, a: u64) -> u64
    requires { Summed n sums.now × (2 ≤ n) × (a < 2 ^ n) }
    ensures { result ≡ inverse_of n (summed_rows n sums.now) a }
{
    rotated(n, power_of(sums, n, n - 1, a))
}
