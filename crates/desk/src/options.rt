// The words and the options of the command line. An option begins with two dashes, or is -h, and may stand anywhere.
ghost use Rattle.std.specs.Prelude.{◌≡◌, ◌≤◌, length};

use super::complaints::{Fault, bad_word};
use super::input::word_space;
use sheet::LIST_LIMIT;
use streams::{Failure, Host, word_at, word_count};

// The words before the values of a list: the command and the sheet.
pub(crate) const VALUES_AT: usize = 2;

// The most words that a command takes: as many as a list has values, and those before them.
pub(crate) const MOST_WORDS: usize = LIST_LIMIT + VALUES_AT;

// Room for the places of the words that are no options, and one more, by which too many show.
pub(crate) const WORDS_ROOM: usize = MOST_WORDS + 1;

pub(crate) fn places_space() -> [usize; WORDS_ROOM]
    ensures { 4099 ≡ length result }
{
    [0; WORDS_ROOM]
}

// The places of the words of the command line that are no options. Their room is lent, since a struct that has it is copied whole wherever
// it is handed on.
#[derive(Drop)]
pub(crate) struct Words<'s> {
    places: &'s mut [usize; WORDS_ROOM],
    count: usize,
    ghost have_room: { count ≤ 4099 },
}

impl<'s> Words<'s> {
    fn none(places: &'s mut [usize; WORDS_ROOM]) -> Self {
        Words { places, count: 0 }
    }

    // Word i, after those before it, if there is room.
    fn add(&mut self, i: usize) {
        if self.count < WORDS_ROOM {
            self.places[self.count] = i;
            self.count += 1;
        }
    }

    pub(crate) fn places(&self) -> &[usize] {
        &self.places[..self.count]
    }
}

// An option that a file is to follow.
#[derive(Clone, Copy, Debug, PartialEq, Eq)]
enum Named {
    To,
    From,
}

// What a word of the command line is.
#[derive(Clone, Copy, Debug, PartialEq, Eq)]
enum Mark {
    Word,
    Hex,
    Names(Named),
    Help,
    Version,
    Unknown,
}

fn mark_of(word: &[u8]) -> Mark {
    match word {
        b"--hex" => Mark::Hex,
        b"--to" => Mark::Names(Named::To),
        b"--from" => Mark::Names(Named::From),
        b"--help" | b"-h" => Mark::Help,
        b"--version" => Mark::Version,
        [b'-', b'-', ..] => Mark::Unknown,
        _ => Mark::Word,
    }
}

// What word i is. One that is too long for an option is a word.
fn mark_at<H: Host>(host: &H, i: usize) -> Mark {
    let mut space = word_space();
    mark_of(word_at(host, i, &mut space))
}

// An option whose file is the next word: which, and its place.
#[derive(Clone, Copy)]
struct Awaiting {
    named: Named,
    place: usize,
}

// What the command line has: its words; whether it asks for hexadecimal, the help page or the version; the places of the files after --to
// and --from.
#[derive(Drop)]
pub(crate) struct Given<'s> {
    pub(crate) words: Words<'s>,
    pub(crate) hex: bool,
    pub(crate) help: bool,
    pub(crate) version: bool,
    pub(crate) to: Option<usize>,
    pub(crate) from: Option<usize>,
}

impl<'s> Given<'s> {
    fn nothing(places: &'s mut [usize; WORDS_ROOM]) -> Self {
        Given {
            words: Words::none(places),
            hex: false,
            help: false,
            version: false,
            to: None,
            from: None,
        }
    }

    // Word i, which is the file of the option before it. A line says so if that option had a file before.
    fn add_file<H: Host>(&mut self, host: &H, option: Awaiting, i: usize) -> Result<(), Failure> {
        let file = match option.named {
            Named::To => &mut self.to,
            Named::From => &mut self.from,
        };
        match file.replace(i) {
            Some(_) => Err(bad_word(host, option.place, Fault::Twice)),
            None => Ok(()),
        }
    }

    // Word i, which is no file of an option. The result is the option whose file is to follow, if it is one.
    fn add_next<H: Host>(&mut self, host: &H, i: usize) -> Result<Option<Awaiting>, Failure> {
        match mark_at(host, i) {
            Mark::Word => self.words.add(i),
            Mark::Hex => self.hex = true,
            Mark::Help => self.help = true,
            Mark::Version => self.version = true,
            Mark::Names(named) => return Ok(Some(Awaiting { named, place: i })),
            Mark::Unknown => return Err(bad_word(host, i, Fault::NoOption)),
        }
        Ok(None)
    }
}

// All that the command line has after the program's name; the places of its words go into the room. If an option cannot be used, a line
// says so of the first: it is unknown, its file is missing, or it was given before.
pub(crate) fn gather<'s, H: Host>(
    host: &H,
    places: &'s mut [usize; WORDS_ROOM],
) -> Result<Given<'s>, Failure> {
    let mut given = Given::nothing(places);
    let mut awaiting = None;
    for i in 1..word_count(host) {
        awaiting = match awaiting {
            None => given.add_next(host, i)?,
            Some(option) => {
                given.add_file(host, option, i)?;
                None
            }
        };
    }
    match awaiting {
        None => Ok(given),
        Some(option) => Err(bad_word(host, option.place, Fault::NoFile)),
    }
}
