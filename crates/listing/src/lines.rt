// The lines of a listing, put into a lent text: a row's, all rows', the last, and that of a refusal.
ghost use Rattle.std.specs.Prelude.{◌+◌, ◌*◌, ◌≤◌, length};
ghost use Rattle.gf2.specs.Limit.{limit};
ghost use Rattle.normal.specs.Grades.{grade_number};
ghost use Rattle.sheet.specs.Record.{record_size};
ghost use Rattle.listing.specs.Text.{row_line, row_lines, last_line, refused_line};
ghost use Rattle.listing.specs.Room.{row_room, last_room, refused_room};
ghost use Rattle.listing.specs.Putting.{Puts, Same};

use super::putting::{Lent, NUMBER_ROOM};
use normal::Grade;
use sheet::row_at;

pub const SPACE: u8 = 32;

pub const NEWLINE: u8 = 10;

// The most bytes of a row's line, and of the last line. The specs have them as `row_room` and `last_room`.
pub const ROW_ROOM: usize = 4 * NUMBER_ROOM;

pub const LAST_ROOM: usize = 11 + NUMBER_ROOM + 6 + NUMBER_ROOM;

impl Lent<'_> {
    // Row i of the sheet: its number, conjugate, inverse row and table row.
    fn row(&mut self, sheet: &[u8], i: usize)
        requires { (self.old.at + row_room ≤ length self.old.text.now) × (record_size * i + record_size ≤ length sheet.now) }
        ensures put { Puts self.old (row_line sheet.now i) self.new }
        ensures short { self.new.at ≤ self.old.at + row_room }
        ensures same { Same self.old self.new }
    {
        let row = row_at(sheet, i);
        self.number(i as u64, SPACE);
        self.number(row.conjugate, SPACE);
        self.number(row.inverse, SPACE);
        self.number(row.table, NEWLINE);
    }

    // The first n rows.
    pub fn rows(&mut self, sheet: &[u8], n: usize)
        requires { (n ≤ limit) × (self.old.at + row_room * n ≤ length self.old.text.now) × (record_size * n ≤ length sheet.now) }
        ensures put { Puts self.old (row_lines sheet.now n) self.new }
        ensures short { self.new.at ≤ self.old.at + row_room * n }
        ensures same { Same self.old self.new }
    {
        for i in 0..n {
            self.row(sheet, i);
        }
    }

    // The last line.
    pub fn last(&mut self, complexity: u32, grade: Grade)
        requires { self.old.at + last_room ≤ length self.old.text.now }
        ensures put { Puts self.old (last_line complexity (grade_number grade)) self.new }
        ensures same { Same self.old self.new }
    {
        self.bytes(b"complexity ");
        self.number(u64::from(complexity), SPACE);
        self.bytes(b"grade ");
        self.number(u64::from(grade), NEWLINE);
    }

    // The line of a refusal.
    pub fn refused(&mut self, number: u8, place: usize)
        requires { self.old.at + refused_room ≤ length self.old.text.now }
        ensures put { Puts self.old (refused_line number place) self.new }
        ensures short { self.new.at ≤ self.old.at + refused_room }
        ensures same { Same self.old self.new }
    {
        self.bytes(b"refused ");
        self.number(u64::from(number), SPACE);
        self.number(place as u64, NEWLINE);
    }
}
