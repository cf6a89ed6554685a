// The product of normal coordinates, through a table's rows as they stand.
ghost use Rattle.std.specs.Prelude.{◌≡◌, List, ℕ, ◌^◌, ◌≤◌, ◌<◌, take};
ghost use Rattle.gf2.specs.Limit.{limit};
ghost use Rattle.normal.specs.TableProduct.{rotate, table_product, Factors, SumsRows};

use gf2::{LIMIT, picked};
use rows::sum;

// Bit i goes to i + 1, and bit n - 1 to 0.
pub fn rotated(n: u32, v: u64) -> u64
    requires { (n < 64) × (v < 2 ^ n) }
    ensures { result ≡ rotate n v }
{
    let up = v << 1;
    up % (1u64 << n) + (up >> n)
}

// The product of a and b through the rows that the closure sums: it answers the sum of those that the bits of a number pick. The bits of a
// are taken from the highest down. At bit i what is summed so far is rotated, and where the bit is set the rows are added that b picks,
// rotated back i times: that is n - i times up, which is once more at each turn.
pub fn product_by_turns<F: Fn(u64) -> u64>(n: u32, a: u64, b: u64, sum: F) -> u64
    requires degree { (1 ≤ n) × (n ≤ limit) }
    requires operand { b < 2 ^ n }
    requires callable { (v : ℕ) → v < 2 ^ n → F.pre sum v }
    requires rows { (T : List ℕ) × SumsRows n T (F.post sum) }
    ensures { (T : List ℕ) → SumsRows n T (F.post sum) → result ≡ table_product n T a b }
{
    let mut product: u64 = 0;
    let mut turned = b;
    for i in (0..n).rev() {
        turned = rotated(n, turned);
        let row = sum(turned);
        product = rotated(n, product) ^ picked((a >> i) % 2, row);
    }
    product
}

// The product of a and b, through a table's rows as they stand.
pub fn product_of(table: [u64; LIMIT], n: u32, a: u64, b: u64) -> u64
    requires { Factors table n a b }
    ensures { result ≡ table_product n (take n table) a b }
{
    product_by_turns(n, a, b, |turned| sum(&table, turned))
}
