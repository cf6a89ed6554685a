// The sum of the rows that the bits of a number pick: what converts between the two notations (document 01, "What a sheet holds").
ghost use Rattle.std.specs.Prelude.{◌≡◌, ◌^◌, ◌<◌};
ghost use Rattle.gf2.specs.Limit.{limit};
ghost use Rattle.rows.specs.Rows.{comb};

use gf2::{LIMIT, picked};

// The sum of the rows that v's bits pick. It stops after v's highest bit, so small degrees take few turns; no turn has a branch. Over the
// rows up to that bit, as a slice, a `for` takes a fifth longer.
pub fn sum(rows: &[u64; LIMIT], v: u64) -> u64
    requires { v < 2 ^ limit }
    ensures { result ≡ comb rows.now v }
{
    let mut sum: u64 = 0;
    let mut left = v;
    let mut i: usize = 0;
    while 0 < left {
        sum = sum ^ picked(left % 2, rows[i]);
        left = left / 2;
        i += 1;
    }
    sum
}
