// The command line of a designer at the desk: a command, its words, one answer. `desk help` lists the commands.
//
// An answer goes to standard output; a refusal, with its meaning and its cause, and the line on a bad word go to standard error, so
// that a sheet or a list in a file has nothing but itself. The refusal that `why` tells is its answer. The program tells how it ended by a byte of
// its own (`streams::end`), and the script `desk` at the top makes it an exit status.
#![tactic(auto)]

mod answers;
mod by_line;
mod command;
mod complaints;
mod converting;
mod field_commands;
mod input;
mod lines;
mod listed;
mod matrix_text;
mod mismatch;
mod options;
mod output;
mod pages;
mod refusing;
mod replacing;
mod sheet_commands;
mod task;
mod telling;
mod values;

use command::Command;
use complaints::{Fault, bad_word, bad_words};
use options::Given;
use streams::{Ending, Failure, Host, word_at};
use task::Task;

fn run<H: Host>(command: Option<Command>, task: &mut Task<'_, H>) -> Result<(), Failure> {
    let Some(command) = command else {
        return Err(bad_word(task.host(), task.place(0), Fault::NoCommand));
    };
    match command {
        Command::Check => field_commands::check(task),
        Command::Multiply => field_commands::multiply(task),
        Command::Square => field_commands::square(task),
        Command::Trace => field_commands::trace(task),
        Command::Search => field_commands::search(task),
        Command::Build => sheet_commands::build(task),
        Command::Show => sheet_commands::show(task),
        Command::List => sheet_commands::list(task),
        Command::Verify => sheet_commands::verify(task),
        Command::Why => sheet_commands::why(task),
        Command::Matrices => sheet_commands::matrices(task),
        Command::ReadMatrices => matrix_text::read(task),
        Command::Times => sheet_commands::times(task),
        Command::Inverse => sheet_commands::inverse(task),
        Command::Quotient => sheet_commands::quotient(task),
        Command::Normal => converting::normal(task),
        Command::Polynomial => converting::polynomial(task),
        Command::Help => pages::put_help(task),
        Command::Version => pages::put_version(task),
    }
}

// The command that the first word names, if there is such a command. No word at all asks for help.
fn command_given<H: Host>(host: &H, given: &Given<'_>) -> Option<Command> {
    if given.help {
        return Some(Command::Help);
    }
    if given.version {
        return Some(Command::Version);
    }
    let Some(first) = given.words.places().first() else {
        return Some(Command::Help);
    };
    let mut space = input::word_space();
    Command::named(word_at(host, *first, &mut space))
}

// On a refusal `why` has answered, and no other command has.
fn answer<H: Host>(host: &H) -> Result<(), Failure> {
    let mut places = options::places_space();
    let given = options::gather(host, &mut places)?;
    let command = command_given(host, &given);
    if given.from.is_some() && !command.is_some_and(Command::takes_from) {
        let line = "desk: '--from' goes with 'normal', 'polynomial' and 'read-matrices' alone\n";
        return Err(bad_words(host, line));
    }
    let output = replacing::open_output(host, &given)?;
    let mut task = Task { given, output };
    let ended = run(command, &mut task);
    let Task { given: _, output } = task;
    if command == Some(Command::Why) {
        return output.close_answer(ended);
    }
    output.close(ended)
}

fn main(rt: HostRuntime) {
    streams::end(&rt, Ending::from(answer(&rt)));
}
