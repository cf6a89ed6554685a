// The coordinates of x^n to x^(2n-1) in the basis of the reference, as sums that bytes pick: with them a product is turned into coordinates
// before it is reduced.
ghost use Rattle.std.specs.Prelude.{◌≡◌};
ghost use Rattle.rows.specs.ByteSums.{bytes, byte_sums};
ghost use Rattle.elements.specs.Upper.{upper_rows};

use super::modulus::Modulus;
use super::reference::Reference;
use super::squares::Squares;
use gf2::{LIMIT, multiply_by_x, power};
use rows::{BYTE_SUMS, byte_sums};

// What all elements of a field share: the squares, the modulus, a reference, and the sums that bytes pick of the coordinates of x^n to x^(2n-1).
#[derive(Drop)]
pub struct Tables<'a> {
    pub squares: &'a Squares,
    pub modulus: Modulus,
    pub reference: &'a Reference,
    pub uppers: &'a [u64; BYTE_SUMS],
    pub ghost of_squares: { (squares.now.f ≡ modulus.f) × (squares.now.n ≡ modulus.n) },
    pub ghost of_reference: { (reference.now.f ≡ modulus.f) × (reference.now.n ≡ modulus.n) },
    pub ghost of_uppers: { uppers.now ≡ byte_sums bytes (upper_rows modulus.f modulus.n reference.now.sums) },
}

// The coordinates of x^n to x^(2n-1).
fn upper_rows(reference: &Reference) -> [u64; LIMIT]
    ensures { result ≡ upper_rows reference.now.f reference.now.n reference.now.sums }
{
    let f = reference.f;
    let n = reference.n;
    let mut rows: [u64; LIMIT] = [0; LIMIT];
    let mut y = f - power(n as usize);
    for i in 0..n as usize {
        rows[i] = reference.coordinates(y);
        y = multiply_by_x(f, n, y);
    }
    rows
}

impl Reference {
    // The byte sums of these rows, written into what is lent, so that the stack has them once.
    pub fn upper_sums(&self, uppers: &mut [u64; BYTE_SUMS])
        ensures { uppers.new ≡ byte_sums bytes (upper_rows self.now.f self.now.n self.now.sums) }
    {
        byte_sums(upper_rows(self), uppers);
    }
}

impl<'a> Tables<'a> {
    // The tables that these are parts of. The large ones are lent, for the same reason.
    pub fn new(
        squares: &'a Squares,
        modulus: Modulus,
        reference: &'a Reference,
        uppers: &'a [u64; BYTE_SUMS],
    ) -> Self
        requires of_squares { (squares.now.f ≡ modulus.f) × (squares.now.n ≡ modulus.n) }
        requires of_reference { (reference.now.f ≡ modulus.f) × (reference.now.n ≡ modulus.n) }
        requires of_uppers { uppers.now ≡ byte_sums bytes (upper_rows modulus.f modulus.n reference.now.sums) }
        ensures { (result.squares.now ≡ squares.now) × (result.modulus ≡ modulus) × (result.reference.now ≡ reference.now) }
    {
        Tables {
            squares,
            modulus,
            reference,
            uppers,
        }
    }
}
