// What is played, held against a line's output: its text, or `#`, its length and its sum.
use listing::bytes::shown;
use listing::text::Line;
use play::Play;

// The largest prime below 2^55.
const MODULUS: u64 = 36028797018963913;

// The bytes so far: what is left of the line's text behind them, none once a byte differs, how many they are, and
// their sum, which has them as the digits of a number of base 256.
#[derive(Clone, Copy)]
struct Compared<'a> {
    text: Option<Line<'a>>,
    length: u64,
    sum: u64,
}

// What is left of the text behind that byte of the output.
fn after(mut text: Line<'_>, b: u8) -> Option<Line<'_>> {
    text.past(&[shown(b)])?;
    Some(text)
}

impl Compared<'_> {
    fn take(&mut self, bytes: &[u8]) {
        for b in bytes {
            self.text = self.text.and_then(|text| after(text, *b));
            self.length = self.length.wrapping_add(1);
            self.sum = (self.sum % MODULUS * 256 + u64::from(*b)) % MODULUS;
        }
    }

    // The rest of the output, block by block. A block has a sample at least, so the `for` has turns enough: it bounds the
    // loop for the check and is left when no sample is.
    fn take_blocks(&mut self, mut play: Play, out: &mut [u8; 20480]) -> Option<()> {
        for _ in play.next..play.count {
            if play.count <= play.next {
                break;
            }
            let bytes = play::next_block(&mut play, out).ok()?;
            self.take(out.get(..bytes)?);
        }
        Some(())
    }

    // Whether all that was taken is the line's output.
    fn is_whole(&self, mut output: Line<'_>) -> Option<()> {
        if output.past(b"#").is_some() {
            return output.says(&(self.length, self.sum));
        }
        self.text?.ended()
    }
}

// Whether playing the input gives the line's output.
pub(crate) fn gives(input: &[u8], output: Line<'_>, out: &mut [u8; 20480]) -> Option<()> {
    let mut compared = Compared {
        text: Some(output),
        length: 0,
        sum: 0,
    };
    let opened = play::open(input, out);
    compared.take(out.get(..opened.bytes)?);
    if let Ok(play) = opened.play {
        compared.take_blocks(play, out)?;
    }
    compared.is_whole(output)
}
