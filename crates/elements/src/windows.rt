// Products with one a by windows of four bits: the 16 products of a by numbers below 16 are made once, and each product is then one lookup
// for each window of the other operand, where gf2's is one turn for each bit.
ghost use Rattle.std.specs.Prelude.{◌≡◌, ◌+◌, ◌^◌, ◌<◌, ◌≤◌};
ghost use Rattle.gf2.specs.Poly.{mul_mod, Degree};
ghost use Rattle.elements.specs.Multiples.{multiples_of};
ghost use Rattle.elements.specs.Windows.{roomy, four_windows, Unreduced};

use gf2::{multiply_by_x, power};

// A polynomial of degree below 2n: low + high x^n.
#[derive(Clone, Copy)]
pub struct Wide {
    pub low: u64,
    pub high: u64,
}

// The products modulo f of a by the numbers below 16. n is the degree of f.
#[derive(Drop)]
pub struct Multiples {
    pub f: u64,
    pub n: u32,
    pub a: u64,
    pub products: [u64; 16],
    pub ghost is_degree: { Degree f n },
    pub ghost held: { products ≡ multiples_of f n a },
}

// The products, as sums of those by x^0 to x^3.
fn products_of(f: u64, n: u32, a: u64) -> [u64; 16]
    requires { (n < 64) × Degree f n × (a < 2 ^ n) }
    ensures { result ≡ multiples_of f n a }
{
    let b = multiply_by_x(f, n, a);
    let c = multiply_by_x(f, n, b);
    let d = multiply_by_x(f, n, c);
    let ab = b ^ a;
    let cd = d ^ c;
    [
        0,
        a,
        b,
        ab,
        c,
        c ^ a,
        c ^ b,
        c ^ ab,
        d,
        d ^ a,
        d ^ b,
        d ^ ab,
        cd,
        cd ^ a,
        cd ^ b,
        cd ^ ab,
    ]
}

// The sum of the products that the lowest four windows of w pick, each moved to its place. It is not reduced.
fn four_windows(products: &[u64; 16], w: u64) -> u64
    ensures { result ≡ four_windows products.now w }
{
    products[(w % 16) as usize]
        ^ (products[((w >> 4) % 16) as usize] << 4)
        ^ (products[((w >> 8) % 16) as usize] << 8)
        ^ (products[((w >> 12) % 16) as usize] << 12)
}

impl Multiples {
    pub fn new(f: u64, n: u32, a: u64) -> Self
        requires { (n < 64) × Degree f n × (a < 2 ^ n) }
        ensures { (result.f ≡ f) × (result.n ≡ n) × (result.a ≡ a) }
    {
        Multiples {
            f,
            n,
            a,
            products: products_of(f, n, a),
        }
    }

    // A polynomial of degree below 2n that is the product of a and b modulo f. No turn waits for the one before it, as it would if each reduced.
    // The count of turns is a constant, so that they are unrolled, and two callers are no reason for LLVM to leave it a call.
    #[inline(always)]
    pub fn wide_product(&self, b: u64) -> Wide
        requires { self.now.n ≤ roomy }
        ensures { b < 2 ^ self.now.n → Unreduced self.now.f self.now.n self.now.a b result.low result.high }
    {
        let n = self.n;
        let mask = power(n as usize) - 1;
        let mut low: u64 = 0;
        let mut high: u64 = 0;
        for j in 0..4u32 {
            let k = 16 * j;
            if n <= k {
                break;
            }
            let part = four_windows(&self.products, b >> k);
            low = low ^ ((part << k) & mask);
            high = high ^ (part >> (n - k));
        }
        Wide { low, high }
    }

    // The product of a and v modulo t^n + 1, if f is that: t^n is 1.
    pub fn turned_product(&self, v: u64) -> u64
        requires { self.now.n ≤ roomy }
        ensures { self.now.f ≡ 2 ^ self.now.n + 1 → 1 ≤ self.now.n → v < 2 ^ self.now.n → result ≡ mul_mod (2 ^ self.now.n + 1) self.now.n self.now.a v }
    {
        let wide = self.wide_product(v);
        wide.low ^ wide.high
    }
}
