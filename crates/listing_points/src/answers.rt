// Our answer held against the line's, which stands after ` => `: `ok ..` or `refuse N`.
use listing::text::{Line, Said};
use points::refusal::Refusal;

#[derive(Clone, Copy)]
pub struct Refused(pub Refusal);

impl Said for Refused {
    fn is_said(&self, line: &mut Line<'_>) -> Option<()> {
        line.past(b" => refuse")?;
        self.0.number().is_said(line)
    }
}

// A value, or a refusal.
#[derive(Clone, Copy, Drop)]
pub struct Answer<T>(pub Result<T, Refusal>);

impl<T: Said> Said for Answer<T> {
    fn is_said(&self, line: &mut Line<'_>) -> Option<()> {
        match &self.0 {
            Ok(value) => {
                line.past(b" => ok")?;
                value.is_said(line)
            }
            Err(why) => Refused(*why).is_said(line),
        }
    }
}

// What a lookup gives: `none`, or `some` and a value.
#[derive(Clone, Copy)]
pub struct Found(pub Option<f32>);

impl Said for Found {
    fn is_said(&self, line: &mut Line<'_>) -> Option<()> {
        let Some(value) = self.0 else {
            return line.past(b" none");
        };
        line.past(b" some")?;
        value.is_said(line)
    }
}
