// The walk over a range: the elements in order, joined to what is held from before. Leaders of trace 1 alone are looked at. The first normal one
// is found by building bases; it is then the reference through which it and all that follow are decided.
ghost use Rattle.std.specs.Prelude.{◌≡◌, true, ◌+◌, ◌-◌, ◌^◌, ◌≤◌, ◌<◌};
ghost use Rattle.normal.specs.Normal.{normal};
ghost use Rattle.search.specs.Search.{leader, normal_leader, joined, candidate_of, walked, ranged, count_of};
ghost use Rattle.search.specs.Joining.{as_answer};
ghost use Rattle.search.specs.Begun.{RangeOf, PartOf, trace_leader, FirstOf};

use super::answer::Best;
use super::joining::{bound_of, join_decided};
use super::leader::is_leader;
use elements::{Modulus, Reference, Squares, Tables};
use field::Ring;
use gf2::Spread;
use normal::build_basis;
use rows::BYTE_SUMS;

// Whether a is a leader of trace 1. A normal element has trace 1, so that no other can be a normal leader.
fn is_trace_leader(squares: &Squares, m: Modulus, a: u64) -> bool
    requires of_squares { (squares.now.f ≡ m.f) × (squares.now.n ≡ m.n) }
    requires element { a < 2 ^ m.n }
    ensures { result ≡ trace_leader m.f m.n a }
{
    m.has_trace(a) && is_leader(squares, a)
}

// Whether a is normal, by its own basis.
fn is_normal(spread: &Spread, m: Modulus, a: u64) -> bool
    requires { a < 2 ^ m.n }
    ensures { result ≡ normal m.f m.n a }
{
    build_basis(spread, m.f, m.n, a).is_ok()
}

// The first normal leader from first to last, by the bases of leaders, if there is one. Most elements are passed over in a nanosecond or two, and
// a range that has its end in it (`..=`) would take as long again for its own step: so both walks end before last + 1.
fn first_normal(
    spread: &Spread,
    squares: &Squares,
    m: Modulus,
    first: u64,
    last: u64,
) -> Option<u64>
    requires of_squares { (squares.now.f ≡ m.f) × (squares.now.n ≡ m.n) }
    requires part { PartOf m.n first last }
    ensures { FirstOf m.f m.n (normal_leader m.f m.n) first last result }
{
    for a in first..last + 1 {
        if is_trace_leader(squares, m, a) && is_normal(spread, m, a) {
            return Some(a);
        }
    }
    None
}

// What is held, joined with the leader a.
fn join_next(tables: &Tables, held: Option<Best>, a: u64) -> Option<Best>
    requires element { a < 2 ^ tables.now.modulus.n }
    requires leads { leader tables.now.modulus.f tables.now.modulus.n a ≡ true }
    requires counts { count_of (as_answer held) ≤ a }
    ensures { as_answer result ≡ joined (as_answer held) (candidate_of tables.now.modulus.f tables.now.modulus.n a) }
{
    let decided = tables.decide(a, bound_of(held));
    join_decided(tables.modulus.f, tables.modulus.n, held, a, decided)
}

// What is held, joined with the elements from next to last.
fn walk_on(tables: &Tables, held: Option<Best>, next: u64, last: u64) -> Option<Best>
    requires { PartOf tables.now.modulus.n next last × (count_of (as_answer held) ≤ next) }
    ensures { as_answer result ≡ joined (as_answer held) (walked tables.now.modulus.f tables.now.modulus.n next (last + 1 - next)) }
{
    let m = tables.modulus;
    let mut found = held;
    for y in next..last + 1 {
        if is_trace_leader(tables.squares, m, y) {
            found = join_next(tables, found, y);
        }
    }
    found
}

// What is held, joined with the answer over the elements from first to last.
pub fn walk(spread: &Spread, ring: Ring, held: Option<Best>, first: u64, last: u64) -> Option<Best>
    requires { RangeOf ring.f ring.n first last × (count_of (as_answer held) ≤ first) }
    ensures { as_answer result ≡ joined (as_answer held) (ranged ring.f ring.n first last) }
{
    let squares = Squares::new(spread, ring.f, ring.n);
    let m = Modulus::new(&squares);
    match first_normal(spread, &squares, m, first, last) {
        None => held,
        Some(b) => {
            let reference = Reference::new(spread, ring.f, ring.n, b);
            let mut uppers: [u64; BYTE_SUMS] = [0; BYTE_SUMS];
            reference.upper_sums(&mut uppers);
            let tables = Tables::new(&squares, m, &reference, &uppers);
            walk_on(&tables, held, b, last)
        }
    }
}
