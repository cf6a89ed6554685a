// The lister (document 01, "Lister"; document 02, §5): reads a sheet from standard input and prints its listing, or its refusal and the
// cause. One byte past 46 records is enough to tell that the input is longer, which is refusal 7.
#![tactic(auto)]

use gf2::LIMIT;
use listing::LISTING_ROOM;
use sheet::RECORD;
use streams::{
    Ending, Failure, Host, cannot, end, finish_output, read_whole, word_count, write_output,
};

// Whether a sheet is refused: that is how the run ends when the listing is written.
fn judge(sheet: &[u8]) -> Result<(), Failure> {
    match sheet::read(sheet) {
        Err(_) => Err(Failure::Refused),
        Ok(_) => Ok(()),
    }
}

fn list<H: Host>(host: &H, sheet: &[u8]) -> Result<(), Failure> {
    let mut text = [0u8; LISTING_ROOM];
    let end = listing::listing(sheet, &mut text);
    write_output(host, &text[..end])?;
    finish_output(host)?;
    judge(sheet)
}

fn answer<H: Host>(host: &H) -> Result<(), Failure> {
    if word_count(host) > 1 {
        let _ = host.say(b"desk: the lister takes no words; write: lister < SHEET\n");
        return Err(Failure::BadWord);
    }
    let mut input = [0u8; RECORD * LIMIT + 1];
    let size = read_whole(&mut host.reader(), &mut input).map_err(|why| cannot(
        host,
        b"read",
        b"standard input",
        &why,
    ))?;
    list(host, &input[..size])
}

fn main(rt: HostRuntime) {
    end(&rt, Ending::from(answer(&rt)));
}
