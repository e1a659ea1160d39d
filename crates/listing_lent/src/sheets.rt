// The sheet's writer, on lent bytes: `sheet E LENGTH => ok bytes COUNT TEXT`, where `|` in the text is
// the end of a sheet's line. The places after the count stay, and all of them where the call is refused.
// The sheet's reader: `read_sheet TEXT => ok E` or `refuse N LINE`, where the text has any byte.
use listing::bytes::{bytes_of, shown};
use listing::text::{Given, Line, Outcome, Said};
use listing_envelopes::records::Envelope;
use listing_points::answers::Refused;
use sheet::read::read_sheet;
use sheet::write::write_sheet;

// Room for the longest sheet, some 16,500 bytes.
const ROOM: usize = 20480;

// What each place holds before the call: a byte that no sheet has.
const BEFORE: u8 = 7;

// The sheet's bytes, in the lent ones.
fn says_bytes(line: &mut Line<'_>, sheet: &[u8]) -> Option<()> {
    line.past(b" => ok bytes")?;
    sheet.len().is_said(line)?;
    line.past(b" ")?;
    // the text is all that is left
    let text = line.rest;
    let same = text.len() == sheet.len() && text.iter().zip(sheet).all(|(t, b)| *t == shown(*b));
    same.then_some(())
}

fn sheet(mut line: Line<'_>) -> Option<()> {
    let (Envelope(e), length) = line.field::<(Envelope, usize)>()?;
    if ROOM < length {
        return None;
    }
    let mut room = [BEFORE; ROOM];
    let bytes = &mut room[..length];
    let written = write_sheet(&e, bytes);
    let count = written.unwrap_or(0);
    if bytes.len() < count || bytes.iter().skip(count).any(|b| *b != BEFORE) {
        return None;
    }
    match written {
        Ok(_) => says_bytes(&mut line, &bytes[..count]),
        Err(why) => line.says(&Refused(why)),
    }
}

// The call on the bytes that stand in the line, behind a space. A sheet of no bytes has none: there the ` =` comes at once.
fn read(mut line: Line<'_>) -> Option<()> {
    let text = line.text()?;
    let mut room = [BEFORE; ROOM];
    let count = bytes_of(text.strip_prefix(b" ").unwrap_or(text), &mut room)?;
    match read_sheet(&room[..count]) {
        Ok(e) => line.says(&Given(Envelope(e))),
        Err(why) => line.says(&(Refused(why.refusal), why.line)),
    }
}

// `line` is what comes after the name.
pub fn run(name: &[u8], line: Line<'_>) -> Option<Outcome> {
    Some(match name {
        b"sheet" => Outcome::of(sheet(line)),
        b"read_sheet" => Outcome::of(read(line)),
        _ => return None,
    })
}
