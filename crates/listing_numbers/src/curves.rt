// The calls of the curves: `interpolate CODE CP1 CP2 START END T => ok ANSWER`.
use curve::CurveType;
use listing::text::{Field, Line, Outcome, Said};

// A code from 00 to 21 and its controls, `- -` for every code but 05. 06 is none.
#[derive(Clone, Copy)]
pub struct Curve(pub CurveType);

impl Field for Curve {
    fn read(line: &mut Line<'_>) -> Option<Curve> {
        match line.field::<u32>()? {
            5 => {
                let (cp1, cp2) = line.field()?;
                Some(Curve(CurveType::Bezier(cp1, cp2)))
            }
            code @ (0..=4 | 7..=21) => {
                line.past(b" - -")?;
                Some(Curve(CurveType::from_code(code, 0.0, 0.0)))
            }
            _ => None,
        }
    }
}

impl Said for Curve {
    fn is_said(&self, line: &mut Line<'_>) -> Option<()> {
        self.0.code().is_said(line)?;
        match self.0 {
            CurveType::Bezier(cp1, cp2) => (cp1, cp2).is_said(line),
            _ => line.past(b" - -"),
        }
    }
}

pub fn run(name: &[u8], line: Line<'_>) -> Option<Outcome> {
    Some(match name {
        b"interpolate" => {
            line.gives(|(Curve(curve), start, (end, t))| curve.interpolate(start, end, t))
        }
        _ => return None,
    })
}
