// What the calls answer, written for a reader.
use super::output::Output;
use search::Best;
use std::fmt::Write;
use streams::{Failure, Host};

// A value, alone on its line.
pub(crate) fn put_value<H: Host>(output: &mut Output<'_, H>, value: u64) -> Result<(), Failure> {
    let value = output.shown(value);
    writeln!(output, "{value}")?;
    Ok(())
}

// What a search found.
pub(crate) fn put_best<H: Host>(output: &mut Output<'_, H>, best: Best) -> Result<(), Failure> {
    let element = output.shown(best.element);
    let complexity = best.complexity;
    let grade = u64::from(best.grade);
    let count = best.count;
    writeln!(
        output,
        "element {element} complexity {complexity} grade {grade} count {count}"
    )?;
    Ok(())
}
