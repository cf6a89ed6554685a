// What the search answers: "one of three: refused with a number; nothing, when no normal leader lies in the range; or found".
ghost use Rattle.std.specs.Prelude.{◌≡◌};
ghost use Rattle.search.specs.Joining.{as_answer};

use normal::Grade;
use refusals::Fault;

// "found, with the element, its complexity, its grade and the count of normal leaders in the range"
#[derive(Clone, Copy)]
pub struct Best {
    pub element: u64,
    pub complexity: u32,
    pub grade: Grade,
    pub count: u64,
}

// A refusal has no place here, and so its row of the table alone.
#[derive(Clone, Copy)]
pub enum Search {
    Refused(Fault),
    Nothing,
    Found(Best),
}

// What a walk found, which is no refusal.
impl From<Option<Best>> for Search {
    ghost from_gives = { λ found answer. answer ≡ as_answer found };

    fn from(found: Option<Best>) -> Search {
        match found {
            None => Search::Nothing,
            Some(x) => Search::Found(x),
        }
    }
}
