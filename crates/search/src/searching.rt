// The public call search (document 01, "Search"): it judges, then walks.
ghost use Rattle.std.specs.Prelude.{◌≡◌, ◌∷◌};
ghost use Rattle.refusals.specs.Verdicts.{first_of};
ghost use Rattle.refusals.specs.Answers.{checked_of};
ghost use Rattle.field.specs.Judged.{Judged};
ghost use Rattle.field.specs.Refusals.{field_order};
ghost use Rattle.search.specs.Answers.{range_rule, search_order, search_answer, search_report, case_report};

use super::answer::Search;
use super::walking::walk;
use field::{Ring, field_verdict, operands_verdict};
use gf2::Spread;
use refusals::{Fault, Refusal, refused};

// 12, then 2 and 3.
fn range_verdict(spread: &Spread, ring: Ring, first: u64, last: u64) -> Result<(), Refusal>
    ensures { result ≡ checked_of (first_of (range_rule first last ∷ field_order ring.f)) }
{
    if last < first {
        return refused(Fault::EmptyRange);
    }
    field_verdict(spread, ring)
}

// 1, 4, 12, 2, 3.
fn search_verdict(spread: &Spread, f: u64, first: u64, last: u64) -> Result<Ring, Refusal>
    ensures { Judged f (search_order f first last) result }
{
    let ring = operands_verdict(f, first, last)?;
    range_verdict(spread, ring, first, last)?;
    Ok(ring)
}

// The normal class leader from first to last, both included, whose table has the fewest ones.
pub fn search(f: u64, first: u64, last: u64) -> Search
    ensures answer { result ≡ search_answer f first last }
    ensures report { case_report result ≡ search_report f first last }
{
    let spread = Spread::new();
    match search_verdict(&spread, f, first, last) {
        Err(refusal) => Search::Refused(refusal.fault),
        Ok(ring) => Search::from(walk(&spread, ring, None, first, last)),
    }
}
