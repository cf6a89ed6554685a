// What the calls answer, and how a line shows it.
use refusals::Refusal;
use sheet::Summary;
use std::fmt;

// A refusal as a line shows it.
#[derive(Clone, Copy)]
pub(crate) struct Refused(pub Refusal);

impl fmt::Display for Refused {
    fn fmt<W: fmt::Write>(&self, f: &mut fmt::Formatter<W>) -> fmt::Result {
        let Refusal { fault, place } = self.0;
        write!(f, "refusal {}, place {place}", fault.number())
    }
}

// An answer as a line shows it: what was answered, or the refusal.
#[derive(Drop)]
pub(crate) struct Shown<T>(pub Result<T, Refusal>);

impl<T: fmt::Display> fmt::Display for Shown<T> {
    fn fmt<W: fmt::Write>(&self, f: &mut fmt::Formatter<W>) -> fmt::Result {
        match &self.0 {
            Ok(answer) => write!(f, "{answer}"),
            Err(refusal) => write!(f, "{}", Refused(*refusal)),
        }
    }
}

// Where the complexity and the grade of a basis are told.
#[derive(Clone, Copy)]
pub(crate) struct Graded(pub Summary);

impl fmt::Display for Graded {
    fn fmt<W: fmt::Write>(&self, f: &mut fmt::Formatter<W>) -> fmt::Result {
        let grade = u64::from(self.0.grade);
        write!(f, "complexity {}, grade {grade}", self.0.complexity)
    }
}

// A row of a table: a degree, and the number that belongs to it.
#[derive(Clone, Copy)]
pub(crate) struct TableRow(pub u32, pub u64);

impl fmt::Display for TableRow {
    fn fmt<W: fmt::Write>(&self, f: &mut fmt::Formatter<W>) -> fmt::Result {
        write!(f, "{} {}", self.0, self.1)
    }
}
