// The table of a normal element by the tables of a reference, one row at a time.
ghost use Rattle.std.specs.Prelude.{◌≡◌, ◌+◌, ◌*◌, ◌^◌, ◌<◌, ◌≤◌, if◌then◌else◌, nat_eq};
ghost use Rattle.gf2.specs.Poly.{mul_mod};
ghost use Rattle.normal.specs.Normal.{table_rows, complexity};
ghost use Rattle.elements.specs.Reference.{through};
ghost use Rattle.elements.specs.Ones.{Within};
ghost use Rattle.elements.specs.Units.{Witnesses};
ghost use Rattle.elements.specs.declared.units.Witness.TheVariants.{Inverse};

use super::units::Turns;
use super::upper::Tables;
use super::windows::Multiples;
use rows::sum_by_bytes;

// What the ones of row i of a table count for, with those of row n - i, which are as many.
fn both(n: u32, i: u32, ones: u32) -> u32
    requires { (i < 64) × (ones ≤ 64) }
    ensures { (result ≡ (if nat_eq (2 * i) n then ones else 2 * ones)) × (result ≤ 128) }
{
    if 2 * i == n { ones } else { 2 * ones }
}

impl<'a> Tables<'a> {
    // The coordinates of y times c in the reference's basis, and times r, where ys are the multiples of y and rs those of r. If r is the inverse of
    // y's coordinates this makes them those in the basis of y.
    fn row_through(&self, ys: &Multiples, rs: &Multiples, c: u64) -> u64
        requires ys_are { (ys.now.f ≡ self.now.modulus.f) × (ys.now.n ≡ self.now.modulus.n) }
        requires rs_are { (rs.now.f ≡ 2 ^ self.now.modulus.n + 1) × (rs.now.n ≡ self.now.modulus.n) }
        requires element { c < 2 ^ self.now.modulus.n }
        ensures { let f = self.now.modulus.f in let n = self.now.modulus.n in result ≡ mul_mod (2 ^ n + 1) n (through self.now.reference.now.sums (mul_mod f n ys.now.a c)) rs.now.a }
    {
        let wide = ys.wide_product(c);
        rs.turned_product(
            self.reference.coordinates(wide.low) ^ sum_by_bytes(self.uppers, wide.high),
        )
    }

    // The number of ones in the table of y, where r is the inverse of y's coordinates in the reference's basis; a count that passes the bound may be
    // broken off. Rows 1 to n/2 are made, one at a time.
    pub fn ones_within(&self, y: u64, r: u64, bound: u32) -> u32
        requires { (y < 2 ^ self.now.modulus.n) × Witnesses self.now.modulus.n (through self.now.reference.now.sums y) (Inverse r) }
        ensures { Within bound result (complexity (table_rows self.now.modulus.f self.now.modulus.n y)) }
    {
        let m = self.modulus;
        let ys = Multiples::new(m.f, m.n, y);
        let turns = Turns { n: m.n };
        let rs = Multiples::new(turns.modulus(), m.n, r);
        let mut count: u32 = 1;
        let mut c = y;
        for i in 0..m.n / 2 {
            if bound < count {
                return count;
            }
            c = self.squares.square(c);
            let row = self.row_through(&ys, &rs, c);
            count += both(m.n, i + 1, u64::count_ones(row));
        }
        count
    }
}
