// The complexity of a basis (document 01, "What a sheet holds") and its grade (document 02, §3).
ghost use Rattle.std.specs.Prelude.{◌≡◌, ◌^◌, ◌≤◌, ◌<◌, take};
ghost use Rattle.gf2.specs.Limit.{limit};
ghost use Rattle.normal.specs.Normal.{complexity};
ghost use Rattle.normal.specs.Grades.{kind_of, grade_of, grade_number};

use field::{Ring, element_power};
use gf2::LIMIT;

// The grades 0 to 3 (document 02, §3): not optimal, optimal of the first kind, of the second kind, of both.
#[derive(Clone, Copy, Debug, PartialEq, Eq)]
pub enum Grade {
    Zero,
    One,
    Two,
    Three,
}

// The number of ones in the first n rows.
pub fn complexity_of(rows: [u64; LIMIT], n: usize) -> u32
    requires { n ≤ limit }
    ensures { result ≡ complexity (take n rows) }
{
    let mut sum: u32 = 0;
    for row in &rows[..n] {
        sum += row.count_ones();
    }
    sum
}

// Which kind of optimal basis the element a makes: of the first kind exactly if a to the power n + 1 is 1. At degree 2 it is of both.
fn kind_of(ring: Ring, a: u64) -> Grade
    requires { a < 2 ^ ring.n }
    ensures { result ≡ kind_of ring.f ring.n a }
{
    if ring.n == 2 {
        return Grade::Three;
    }
    if element_power(ring, a, ring.n + 1) == 1 {
        Grade::One
    } else {
        Grade::Two
    }
}

// The grade of the basis of a, whose table has so many ones. Few elements are optimal, and the power is made for these alone.
pub fn grade_of(ring: Ring, a: u64, complexity: u32) -> Grade
    requires { a < 2 ^ ring.n }
    ensures { result ≡ grade_of ring.f ring.n a complexity }
{
    if complexity != 2 * ring.n - 1 {
        return Grade::Zero;
    }
    kind_of(ring, a)
}

// The documents' number of a grade.
impl From<Grade> for u64 {
    ghost from_gives = { λ grade number. number ≡ grade_number grade };

    #[tactic(auto, unfolding(crate::specs::Grades::grade_number))]
    fn from(grade: Grade) -> u64
        ensures { result ≡ grade_number grade }
    {
        match grade {
            Grade::Zero => 0,
            Grade::One => 1,
            Grade::Two => 2,
            Grade::Three => 3,
        }
    }
}
