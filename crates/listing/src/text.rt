// The public call listing: what the lister prints of a sheet, put into a lent text.
ghost use Rattle.std.specs.Prelude.{◌≡◌, ◌++◌, length, drop};
ghost use Rattle.io.specs.Counts.{IsPrefixLen};
ghost use Rattle.listing.specs.Text.{listing_of};

use super::lines::{LAST_ROOM, ROW_ROOM};
use super::putting::Lent;
use causes::why;
use gf2::LIMIT;
use sheet::{RECORD, read};

// A text that every listing fits into: as many rows as a sheet can have, and the last line. The specs have it as `listing_room`.
pub const LISTING_ROOM: usize = ROW_ROOM * LIMIT + LAST_ROOM;

// The listing of the sheet, at the text's front; the answer is its length, as the clause size promises. The rest of the text stays as it came. The clause
// counted follows from the two before it; a caller that takes the front of the text asks for it.
pub fn listing(sheet: &[u8], text: &mut [u8; LISTING_ROOM]) -> usize
    ensures size { result ≡ length (listing_of sheet.now) }
    ensures listed { text.new ≡ listing_of sheet.now ++ drop (length (listing_of sheet.now)) text.old }
    ensures counted { IsPrefixLen result text.new }
{
    let mut lent = Lent { text, at: 0 };
    match read(sheet) {
        Err(refusal) => {
            lent.refused(refusal.fault.number(), refusal.place);
            lent.cause(why(sheet));
        }
        Ok(summary) => {
            lent.rows(sheet, sheet.len() / RECORD);
            lent.last(summary.complexity, summary.grade);
        }
    }
    lent.at
}
