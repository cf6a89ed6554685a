// The product of normal coordinates through the byte sums of a table's rows. A product has its rows picked once for each bit, so one at a
// high degree pays for making the sums, and several that share them pay at nearly every degree.
ghost use Rattle.std.specs.Prelude.{◌≡◌, ◌^◌, ◌<◌};
ghost use Rattle.normal.specs.TableProduct.{table_product};
ghost use Rattle.normal.specs.Summed.{summed_rows, Summed};

use super::product::product_by_turns;
use rows::{BYTE_SUMS, sum_by_bytes};

// The product of a and b.
pub fn product_by_bytes(sums: &[u64; BYTE_SUMS], n: u32, a: u64, b: u64) -> u64
    requires { Summed n sums.now × (a < 2 ^ n) × (b < 2 ^ n) }
    ensures { result ≡ table_product n (summed_rows n sums.now) a b }
{
    product_by_turns(n, a, b, |turned| sum_by_bytes(sums, turned))
}
