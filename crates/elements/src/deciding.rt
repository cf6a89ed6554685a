// Whether an element is normal, with the ones of its table: through the reference, where Euclid's algorithm gives a witness, and else by the
// element's own basis.
ghost use Rattle.std.specs.Prelude.{ℕ, ◌^◌, ◌<◌};
ghost use Rattle.elements.specs.Fields.{ElementOf};
ghost use Rattle.elements.specs.Decided.{Decides};

use super::units::{Turns, Witness};
use super::upper::Tables;
use gf2::Spread;
use normal::{build_basis, complexity_of};

// By the basis of y: the count is exact. None: y is not normal.
fn decide_by_basis(f: u64, n: u32, y: u64) -> Option<u32>
    requires { ElementOf f n y }
    ensures { (bound : ℕ) → Decides f n y bound result }
{
    let spread = Spread::new();
    match build_basis(&spread, f, n, y) {
        Ok(basis) => Some(complexity_of(basis.table, n as usize)),
        Err(_) => None,
    }
}

impl<'a> Tables<'a> {
    // How many ones the table of y has, if y is normal, through the reference: the count is exact up to the bound. None: y is not normal.
    pub fn decide(&self, y: u64, bound: u32) -> Option<u32>
        requires { y < 2 ^ self.now.modulus.n }
        ensures { Decides self.now.modulus.f self.now.modulus.n y bound result }
    {
        let m = self.modulus;
        let turns = Turns { n: m.n };
        match turns.unit_of(self.reference.coordinates(y)) {
            Witness::Unknown => decide_by_basis(m.f, m.n, y),
            Witness::Vanishes(_) => None,
            Witness::Inverse(r) => Some(self.ones_within(y, r, bound)),
        }
    }
}
