// Units modulo t^n + 1: whether a polynomial in t has an inverse there, with a witness either way. The witness comes by Euclid's algorithm,
// of which nothing is promised, and is tested by one multiplication: so a wrong one could cost time and nothing else.
//
// Modulo t^n + 1 multiplication by t rotates, so t divides everything, and factors t are taken out by rotating back.
ghost use Rattle.std.specs.Prelude.{◌≡◌, ◌+◌, ◌^◌, ◌<◌, ◌≤◌};
ghost use Rattle.elements.specs.Units.{Witnesses};

use field::too_large;
use gf2::multiply;

// What is known of v: nothing; r with r times v = 1; or w, which is not 0, with w times v = 0.
// Two cases have a number and one has none, so that no Option and no Result is plainer.
#[derive(Clone, Copy)]
pub enum Witness {
    Unknown,
    Inverse(u64),
    Vanishes(u64),
}

// Two polynomials of Euclid's algorithm, the first not divisible by t, and what v is multiplied by to give each.
#[derive(Clone, Copy)]
struct Pair {
    first: u64,
    first_by: u64,
    rest: u64,
    rest_by: u64,
}

// Polynomials in t modulo t^n + 1, where n is below the bits of a word.
#[derive(Clone, Copy)]
pub struct Turns {
    pub n: u32,
    pub ghost fits: { n < 64 },
}

// One or the other. LLVM makes no branch of it.
fn chosen(test: bool, yes: u64, no: u64) -> u64 {
    if test { yes } else { no }
}

impl Turns {
    // t^n + 1.
    pub fn modulus(self) -> u64
        ensures { result ≡ 2 ^ self.n + 1 }
    {
        (1u64 << self.n) + 1
    }

    // x over t^k.
    fn turned_back(self, k: u32, x: u64) -> u64 {
        let down = k % 64;
        let mask = std::num::wrapping_sub_u64(1u64 << self.n, 1);
        (x >> down) | ((x << ((self.n + 64 - down) % 64)) & mask)
    }

    // The factors t are taken out of the rest, and the smaller one out of the larger.
    fn subtracted(self, p: Pair) -> Pair {
        let k = u64::trailing_zeros(p.rest);
        let odd = p.rest >> k % 64;
        let by = self.turned_back(k, p.rest_by);
        let less = odd < p.first;
        Pair {
            first: chosen(less, odd, p.first),
            first_by: chosen(less, by, p.first_by),
            rest: odd ^ p.first,
            rest_by: by ^ p.first_by,
        }
    }

    // The greatest common divisor of t^n + 1 and v, up to factors t, with what v is multiplied by to give it; and beside it 0, with what v is
    // multiplied by to give 0. Each turn takes at least one from the sum of the two degrees.
    fn common_with(self, v: u64) -> Pair {
        let mut p = Pair {
            first: self.modulus(),
            first_by: 0,
            rest: v,
            rest_by: 1,
        };
        for _ in 0..128 {
            if p.rest == 0 {
                return p;
            }
            p = self.subtracted(p);
        }
        p
    }

    // Whether v has an inverse modulo t^n + 1.
    pub fn unit_of(self, v: u64) -> Witness
        requires { (2 ≤ self.n) × (v < 2 ^ self.n) }
        ensures { Witnesses self.n v result }
    {
        let p = self.common_with(v);
        let w = chosen(p.first == 1, p.first_by, p.rest_by);
        if too_large(self.n, w) {
            return Witness::Unknown;
        }
        let product = multiply(self.modulus(), self.n, w, v);
        if product == 1 {
            return Witness::Inverse(w);
        }
        if product != 0 {
            return Witness::Unknown;
        }
        if w == 0 {
            return Witness::Unknown;
        }
        Witness::Vanishes(w)
    }
}
