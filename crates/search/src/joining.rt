// Found records: the one place where they are made, and how one more is joined to what is held.
ghost use Rattle.std.specs.Prelude.{◌≡◌, ◌+◌, ◌^◌, ◌<◌};
ghost use Rattle.elements.specs.Fields.{ElementOf};
ghost use Rattle.search.specs.Search.{precedes, with_count, better, joined, found_by, candidate_of, count_of};
ghost use Rattle.search.specs.Joining.{as_answer, bound_of, Joinable};
ghost use Rattle.search.specs.declared.answer.Search.TheVariants.{Found};

use super::answer::Best;
use field::Ring;
use normal::grade_of;

// The largest number of 32 bits, which no count of ones passes. The specs have it as `unbounded`.
const UNBOUNDED: u32 = u32::MAX;

// The found record of the normal leader a, whose table has so many ones, with this count. No other place makes one of an element.
fn found_by(f: u64, n: u32, a: u64, ones: u32, count: u64) -> Best
    requires { ElementOf f n a }
    ensures { result ≡ with_count (found_by f n a ones) count }
{
    let ring = Ring { f, n };
    Best {
        element: a,
        complexity: ones,
        grade: grade_of(ring, a, ones),
        count,
    }
}

// "least complexity, then smallest element": whether complexity c and element e come before complexity d and element g.
fn comes_before(c: u32, e: u64, d: u32, g: u64) -> bool
    ensures { result ≡ precedes c e d g }
{
    (c, e) < (d, g)
}

// The better of a found record and that of the normal leader a, whose table has so many ones, with the counts of both. Only a new best
// gets its grade.
fn better_of(f: u64, n: u32, x: Best, a: u64, ones: u32) -> Best
    requires { ElementOf f n a × (x.count + 1 < 2 ^ 64) }
    ensures { result ≡ better x (found_by f n a ones) }
{
    let count = x.count + 1;
    if comes_before(ones, a, x.complexity, x.element) {
        found_by(f, n, a, ones, count)
    } else {
        Best { count, ..x }
    }
}

// How many ones a table may have and still be the best: a count may be broken off above it.
pub fn bound_of(held: Option<Best>) -> u32
    ensures { result ≡ bound_of (as_answer held) }
{
    match held {
        None => UNBOUNDED,
        Some(x) => x.complexity,
    }
}

// What is held, joined with the normal leader a, whose table has so many ones.
fn join_leader(f: u64, n: u32, held: Option<Best>, a: u64, ones: u32) -> Best
    requires { ElementOf f n a × (count_of (as_answer held) + 1 < 2 ^ 64) }
    ensures { Found result ≡ joined (as_answer held) (Found (found_by f n a ones)) }
{
    match held {
        None => found_by(f, n, a, ones, 1),
        Some(x) => better_of(f, n, x, a, ones),
    }
}

// What is held, joined with the leader a: of so many ones, if it is normal. f and n are numbers here, since its clause, which may ask for no more
// than it did, asks for an element of their field and for no tables.
pub fn join_decided(
    f: u64,
    n: u32,
    held: Option<Best>,
    a: u64,
    decided: Option<u32>,
) -> Option<Best>
    requires { Joinable f n (as_answer held) a decided }
    ensures { as_answer result ≡ joined (as_answer held) (candidate_of f n a) }
{
    match decided {
        None => held,
        Some(ones) => Some(join_leader(f, n, held, a, ones)),
    }
}
