// What the calls hand out: the numbers of document 01 for each case of an answer, in structs that C knows: their fields and numbers are the C
// interface. Each is made of the library's answer by From.
ghost use Rattle.std.specs.Prelude.{◌≡◌};
ghost use Rattle.refusals.specs.Answers.{value_report, checked_report};
ghost use Rattle.sheet.specs.Answers.{issued_report};
ghost use Rattle.search.specs.Answers.{refused_report, case_report};
ghost use Rattle.causes.specs.Causes.{bare_reason, cause_report};
ghost use Rattle.causes.specs.declared.answer.Cause.TheVariants as cause;
ghost use Rattle.capi.specs.Answers.{desk_value, desk_issued, desk_found, desk_cause, desk_word, found_flag};

use causes::{Cause, Difference};
use refusals::Refusal;
use search::Search;
use sheet::Summary;

// The answer of a call that has one value, or none: then the value is 0.
#[repr(C)]
#[derive(Clone, Copy)]
pub struct DeskValue {
    pub number: u64,
    pub place: u64,
    pub value: u64,
}

// The answer of build and of reading.
#[repr(C)]
#[derive(Clone, Copy)]
pub struct DeskIssued {
    pub number: u64,
    pub place: u64,
    pub degree: u64,
    pub complexity: u64,
    pub grade: u64,
}

// The answer of the search: found is 1 where something is found, else 0.
#[repr(C)]
#[derive(Clone, Copy)]
pub struct DeskFound {
    pub number: u64,
    pub found: u64,
    pub element: u64,
    pub complexity: u64,
    pub grade: u64,
    pub count: u64,
}

// Why reading refuses a sheet: the number that lies behind 2, 3 or 5, or for 10 the field that differs, the number stored there and the
// right one. What a refusal does not have is 0.
#[repr(C)]
#[derive(Clone, Copy)]
pub struct DeskCause {
    pub number: u64,
    pub place: u64,
    pub cause: u64,
    pub field: u64,
    pub stored: u64,
    pub right: u64,
}

// What a word means: clear is 1 and the value its number, or both are 0.
#[repr(C)]
#[derive(Clone, Copy)]
pub struct DeskWord {
    pub clear: u64,
    pub value: u64,
}

// An answer of one value.
impl From<Result<u64, Refusal>> for DeskValue {
    ghost from_gives = { λ answer out. out ≡ desk_value (value_report answer) };

    fn from(answer: Result<u64, Refusal>) -> DeskValue {
        match answer {
            Ok(value) => DeskValue {
                number: 0,
                place: 0,
                value,
            },
            Err(refusal) => DeskValue {
                number: refusal.fault.number() as u64,
                place: refusal.place as u64,
                value: 0,
            },
        }
    }
}

// An answer of no value, handed out as one of the value 0.
impl From<Result<(), Refusal>> for DeskValue {
    ghost from_gives = { λ answer out. out ≡ desk_value (checked_report answer) };

    fn from(answer: Result<(), Refusal>) -> DeskValue {
        match answer {
            Ok(()) => DeskValue {
                number: 0,
                place: 0,
                value: 0,
            },
            Err(refusal) => DeskValue {
                number: refusal.fault.number() as u64,
                place: refusal.place as u64,
                value: 0,
            },
        }
    }
}

// The answer of build or of reading.
impl From<Result<Summary, Refusal>> for DeskIssued {
    ghost from_gives = { λ answer out. out ≡ desk_issued (issued_report answer) };

    fn from(answer: Result<Summary, Refusal>) -> DeskIssued {
        match answer {
            Ok(summary) => DeskIssued {
                number: 0,
                place: 0,
                degree: summary.degree as u64,
                complexity: summary.complexity as u64,
                grade: u64::from(summary.grade),
            },
            Err(refusal) => DeskIssued {
                number: refusal.fault.number() as u64,
                place: refusal.place as u64,
                degree: 0,
                complexity: 0,
                grade: 0,
            },
        }
    }
}

// What a search that finds nothing hands out: the number of its refusal, or 0.
fn not_found(number: u64) -> DeskFound
    ensures { result ≡ desk_found 0 (refused_report number) }
{
    DeskFound {
        number,
        found: 0,
        element: 0,
        complexity: 0,
        grade: 0,
        count: 0,
    }
}

// The answer of the search.
impl From<Search> for DeskFound {
    ghost from_gives = { λ answer out. out ≡ desk_found (found_flag answer) (case_report answer) };

    fn from(answer: Search) -> DeskFound {
        match answer {
            Search::Refused(fault) => not_found(fault.number() as u64),
            Search::Nothing => not_found(0),
            Search::Found(best) => DeskFound {
                number: 0,
                found: 1,
                element: best.element,
                complexity: best.complexity as u64,
                grade: u64::from(best.grade),
                count: best.count,
            },
        }
    }
}

// A cause without a field, handed out.
fn number_behind(number: u64, place: u64, cause: u64) -> DeskCause
    ensures { result ≡ desk_cause (bare_reason number place cause) }
{
    DeskCause {
        number,
        place,
        cause,
        field: 0,
        stored: 0,
        right: 0,
    }
}

// How a record differs.
impl From<Difference> for DeskCause {
    ghost from_gives = { λ difference out. out ≡ desk_cause (cause_report (cause.Differs difference)) };

    fn from(difference: Difference) -> DeskCause {
        DeskCause {
            number: 10,
            place: difference.place as u64,
            cause: 0,
            field: u64::from(difference.field),
            stored: difference.stored,
            right: difference.right,
        }
    }
}

impl From<Cause> for DeskCause {
    ghost from_gives = { λ answer out. out ≡ desk_cause (cause_report answer) };

    fn from(answer: Cause) -> DeskCause {
        match answer {
            Cause::Accepted => number_behind(0, 0, 0),
            Cause::Refused(refusal) => {
                number_behind(refusal.fault.number() as u64, refusal.place as u64, 0)
            }
            Cause::Divisor(divisor) => number_behind(2, 0, divisor),
            Cause::Became(element) => number_behind(3, 0, element),
            Cause::Dependency(set) => number_behind(5, 0, set),
            Cause::Differs(difference) => DeskCause::from(difference),
        }
    }
}

// What a word means.
impl From<Option<u64>> for DeskWord {
    ghost from_gives = { λ word out. out ≡ desk_word word };

    fn from(word: Option<u64>) -> DeskWord {
        match word {
            None => DeskWord { clear: 0, value: 0 },
            Some(value) => DeskWord { clear: 1, value },
        }
    }
}
