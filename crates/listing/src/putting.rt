// Bytes and numbers put into a lent text, each after what is there.
ghost use Rattle.std.specs.Prelude.{◌+◌, ◌≤◌, length};
ghost use Rattle.listing.specs.Text.{number_then};
ghost use Rattle.listing.specs.Room.{number_room};
ghost use Rattle.listing.specs.Putting.{Put, Puts, Same};

// The most decimal digits of a 64-bit number, and of these with the mark after them. The specs have it as `number_places` and `number_room`.
const NUMBER_PLACES: usize = 20;

pub const NUMBER_ROOM: usize = NUMBER_PLACES + 1;

// A lent text, and the place in it that is put to next. Each method says that the text is still the one that was lent: so the lender
// knows what has been put into its own.
#[derive(Drop)]
pub struct Lent<'a> {
    pub text: &'a mut [u8],
    pub at: usize,
}

impl Lent<'_> {
    // The bytes.
    pub fn bytes(&mut self, bytes: &[u8])
        requires { self.old.at + length bytes.now ≤ length self.old.text.now }
        ensures put { Puts self.old bytes.now self.new }
        ensures same { Same self.old self.new }
    {
        let end = self.at + bytes.len();
        self.text[self.at..end].copy_from_slice(bytes);
        self.at = end;
    }

    // A number in decimal, and the mark after it.
    pub fn number(&mut self, number: u64, mark: u8)
        requires { self.old.at + number_room ≤ length self.old.text.now }
        ensures put { Puts self.old (number_then number mark) self.new }
        ensures short { self.new.at ≤ self.old.at + number_room }
        ensures same { Same self.old self.new }
    {
        let mut digits = [0u8; NUMBER_PLACES];
        let count = io::decimal(number, &mut digits);
        self.bytes(&digits[..count]);
        self.text[self.at] = mark;
        self.at += 1;
    }
}

// The bytes, put at a place of the text; the answer is the place after them. This, `put_number` and `put_cause` keep the text and the place
// as arguments, for the programs that call them so and for what they promise of both.
pub fn put_bytes(text: &mut [u8], at: usize, bytes: &[u8]) -> usize
    requires { at + length bytes.now ≤ length text.old }
    ensures { Put text.old at bytes.now text.new result }
{
    let mut lent = Lent { text, at };
    lent.bytes(bytes);
    lent.at
}

// A number in decimal and the mark after it, put at a place of the text.
pub fn put_number(text: &mut [u8], at: usize, number: u64, mark: u8) -> usize
    requires { at + number_room ≤ length text.old }
    ensures put { Put text.old at (number_then number mark) text.new result }
    ensures short { result ≤ at + number_room }
{
    let mut lent = Lent { text, at };
    lent.number(number, mark);
    lent.at
}
