// An element seen through a reference, which is a normal element with its inverse rows: coordinates in the reference's basis, as polynomials
// modulo t^n + 1, give the table of a normal element with no matrix of its own.
ghost use Rattle.std.specs.Prelude.{◌≡◌, true};
ghost use Rattle.normal.specs.Normal.{normal};
ghost use Rattle.elements.specs.Fields.{ElementOf};
ghost use Rattle.elements.specs.Reference as law;
ghost use Rattle.elements.specs.Reference.{through};
ghost use Rattle.elements.specs.Through.{reference-prop};

use gf2::Spread;
use normal::build_basis;
use rows::{BYTE_SUMS, byte_sums, sum_by_bytes};

// An accepted f, its degree n, and the sums that bytes pick of the inverse rows of a normal element, which is not kept.
#[derive(Drop)]
pub struct Reference {
    pub f: u64,
    pub n: u32,
    pub sums: [u64; BYTE_SUMS],
    pub ghost of_normal: { law.Reference f n sums } by { reference-prop f n sums },
}

impl Reference {
    // The reference that b is, a normal element.
    pub fn new(spread: &Spread, f: u64, n: u32, b: u64) -> Self
        requires { ElementOf f n b × (normal f n b ≡ true) }
        ensures { (result.f ≡ f) × (result.n ≡ n) }
    {
        let basis = build_basis(spread, f, n, b).unwrap();
        let mut sums: [u64; BYTE_SUMS] = [0; BYTE_SUMS];
        byte_sums(basis.inverse, &mut sums);
        Reference { f, n, sums }
    }

    // The coordinates of z in the reference's basis.
    pub fn coordinates(&self, z: u64) -> u64
        ensures { result ≡ through self.now.sums z }
    {
        sum_by_bytes(&self.sums, z)
    }
}
