// Why a call refuses: a case for each kind of cause (document 02, §5).
ghost use Rattle.std.specs.Prelude.{◌≡◌};
ghost use Rattle.causes.specs.Causes.{number_of, field_number};

use refusals::Refusal;
use sheet::Row;

// The rows of a record, in byte order, by their numbers.
#[derive(Clone, Copy, Debug, PartialEq, Eq)]
pub enum Field {
    Conjugate = 1,
    Inverse = 2,
    Table = 3,
}

impl Field {
    // The number that a record has there.
    #[tactic(auto, unfolding(crate::specs::Causes::number_of))]
    pub(crate) fn number_of(self, row: Row) -> u64
        ensures { result ≡ number_of self row }
    {
        match self {
            Field::Conjugate => row.conjugate,
            Field::Inverse => row.inverse,
            Field::Table => row.table,
        }
    }
}

impl From<Field> for u64 {
    ghost from_gives = { λ field number. number ≡ field_number field };

    #[tactic(auto, unfolding(crate::specs::Causes::field_number))]
    fn from(field: Field) -> u64 {
        field as u64
    }
}

// How a record differs from the one rebuilt: its place in the sheet, the first field in byte order that differs, the number stored there
// and the right one.
#[derive(Clone, Copy)]
pub struct Difference {
    pub place: usize,
    pub field: Field,
    pub stored: u64,
    pub right: u64,
}

#[derive(Clone, Copy)]
pub enum Cause {
    // Nothing is refused.
    Accepted,
    // A refusal whose number and place say all: each but 2, 3, 5 and 10.
    Refused(Refusal),
    // 2: the smallest divisor of f of degree at least 1.
    Divisor(u64),
    // 3: what x became after n squarings.
    Became(u64),
    // 5: the smallest non-zero number whose set bits select conjugates that sum to zero.
    Dependency(u64),
    // 10: how the first record that is not the one rebuilt differs from it.
    Differs(Difference),
}
