// The line that tells the cause of a refusal (document 02, §5), put into a lent text.
ghost use Rattle.std.specs.Prelude.{◌+◌, ◌≤◌, length};
ghost use Rattle.io.specs.Counts.{IsPrefixLen};
ghost use Rattle.listing.specs.Text.{field_word, difference_line_lem, cause_line};
ghost use Rattle.listing.specs.Room.{field_room, cause_room};
ghost use Rattle.listing.specs.Putting.{Put, Puts, Same};

use super::lines::{NEWLINE, SPACE};
use super::putting::{Lent, NUMBER_ROOM};
use causes::{Cause, Difference, Field};

// The most bytes of the line: a place, a field's word, the stored number and the right one. The specs have it as `cause_room`.
pub const CAUSE_ROOM: usize = NUMBER_ROOM + 10 + NUMBER_ROOM + NUMBER_ROOM;

impl Lent<'_> {
    // The word of a field.
    fn field(&mut self, field: Field)
        requires { self.old.at + field_room ≤ length self.old.text.now }
        ensures put { Puts self.old (field_word field) self.new }
        ensures short { self.new.at ≤ self.old.at + field_room }
        ensures same { Same self.old self.new }
    {
        match field {
            Field::Conjugate => self.bytes(b"conjugate "),
            Field::Inverse => self.bytes(b"inverse "),
            Field::Table => self.bytes(b"table "),
        }
    }

    // The record, the field, the stored number and the right one.
    fn difference(&mut self, difference: Difference)
        requires { self.old.at + cause_room ≤ length self.old.text.now }
        ensures put { Puts self.old (difference_line_lem difference) self.new }
        ensures same { Same self.old self.new }
    {
        self.number(difference.place as u64, SPACE);
        self.field(difference.field);
        self.number(difference.stored, SPACE);
        self.number(difference.right, NEWLINE);
    }

    // The line of a cause; nothing where the number and the place say all.
    pub fn cause(&mut self, cause: Cause)
        requires { self.old.at + cause_room ≤ length self.old.text.now }
        ensures put { Puts self.old (cause_line cause) self.new }
        ensures same { Same self.old self.new }
    {
        match cause {
            Cause::Accepted => {}
            Cause::Refused(_) => {}
            Cause::Divisor(divisor) => self.number(divisor, NEWLINE),
            Cause::Became(element) => self.number(element, NEWLINE),
            Cause::Dependency(set) => self.number(set, NEWLINE),
            Cause::Differs(difference) => self.difference(difference),
        }
    }
}

// The line of a cause, put at a place of the text. The clause counted follows from the first; a caller that takes the front of the text
// asks for it.
pub fn put_cause(text: &mut [u8], at: usize, cause: Cause) -> usize
    requires { at + cause_room ≤ length text.old }
    ensures put { Put text.old at (cause_line cause) text.new result }
    ensures counted { IsPrefixLen result text.new }
{
    let mut lent = Lent { text, at };
    lent.cause(cause);
    lent.at
}
