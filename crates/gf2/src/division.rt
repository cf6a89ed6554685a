// The remainder modulo a polynomial, with the steps that products and squares take too: `picked`, `times_x` and `raised`.
ghost use Rattle.std.specs.Prelude.{◌≡◌, ◌+◌, ◌*◌, ◌^◌, ◌<◌, ◌≤◌};
ghost use Rattle.gf2.specs.Poly.{reduce, rem, Degree};

// A coefficient times a row: the row where the bit is 1, else 0. A mask and no branch, since coefficients cannot be foreseen.
pub fn picked(bit: u64, row: u64) -> u64
    requires { bit < 2 }
    ensures { result ≡ bit * row }
{
    0u64.wrapping_sub(bit) & row
}

// x times a modulo x^64 + low, for polynomials that are kept at the top of the word: the coefficient to take away is then the
// one that leaves it, and no shift by the degree has to find that. It stands at x^64, which is low modulo x^64 + low.
pub fn times_x(low: u64, a: u64) -> u64
    ensures { result ≡ reduce (2 ^ 64 + low) 64 (a * 2) }
{
    (a << 1) ^ picked(a >> 63, low)
}

// x^up times y modulo x^64 + low, for a polynomial y with no coefficient from width upward. It is moved up at once as far as the word
// goes, and then place by place.
pub fn raised(low: u64, width: u32, y: u64, up: u32) -> u64
    requires { (1 ≤ width) × (width ≤ 64) × (64 ≤ width + up) × (y < 2 ^ width) }
    ensures { result ≡ rem (2 ^ 64 + low) 64 (y * 2 ^ up) }
{
    let fits = 64 - width;
    let mut r = y << fits;
    for _k in fits..up {
        r = times_x(low, r);
    }
    r
}

// The remainder modulo f, of degree n, of a polynomial y with no coefficient from width upward: y moved up modulo f moved up, whose
// top term leaves the word, and moved down again. So each coefficient from width - 1 down to n is taken away with f in its turn.
pub fn remainder(f: u64, n: u32, width: u32, y: u64) -> u64
    requires { (width ≤ 64) × Degree f n × (y < 2 ^ width) }
    ensures { result ≡ rem f n y }
{
    // f is 1 then, and a shift by 64 is not allowed.
    if n == 0 {
        return 0;
    }
    if width <= n {
        return y;
    }
    let up = 64 - n;
    raised(f << up, width, y, up) >> up
}

// The element that a word stands for modulo f, of degree n: its remainder. An element is returned as it is, so that no turn is spent on it.
pub fn element_of(f: u64, n: u32, word: u64) -> u64
    requires { Degree f n }
    ensures { result ≡ rem f n word }
{
    if word >> n == 0 {
        return word;
    }
    remainder(f, n, 64, word)
}
