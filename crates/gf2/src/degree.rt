// The degree of a polynomial, and the largest that the desk takes.
ghost use Rattle.std.specs.Prelude.{◌≡◌};
ghost use Rattle.gf2.specs.Poly.{degree};

// The largest degree, and so the number of a matrix's rows. The specs have it as `limit`.
pub const LIMIT: usize = 46;

// The place of the highest coefficient of a; 0 for the zero polynomial.
pub fn degree_of(a: u64) -> u32
    ensures { result ≡ degree a }
{
    a.checked_ilog2().unwrap_or(0)
}
