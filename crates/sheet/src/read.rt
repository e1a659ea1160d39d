// The sheet reader. Nothing is given beside a refusal: no envelope, and no bytes after it.
ghost use Rattle.std.specs.Prelude.{◌≡◌, true, false, length, drop, IfOk, IfErr};
ghost use Rattle.fields.specs.Form.{starts_with};
ghost use Rattle.lines.specs.Told.{told_lines};
ghost use Rattle.sheet.specs.Sheet.{envelope_from, sheet_lines, read_sheet};
ghost use Rattle.sheet.specs.Told.{told_read};
ghost use Rattle.points.specs.declared.refusal.Refusal.TheVariants.{SheetForm};

use envelope::AutomationEnvelope;
use lines::point_lines::point_lines;
use lines::settings::{Settings, settings_line};
use lines::{SheetRefusal, on_line};
use points::Points;
use points::refusal::Refusal;

// The bytes after these names, which are a line.
#[tactic(auto, using(fields::proofs::Starts::starts_front))]
pub(crate) fn named<'a>(s: &'a [u8], names: &[u8], line: u32) -> Result<&'a [u8], SheetRefusal>
    ensures ok { IfOk result (λ rest. (starts_with names.now s.now ≡ true) × (rest.now ≡ drop (length names.now) s.now)) }
    ensures err { IfErr result (λ e. (starts_with names.now s.now ≡ false) × (e ≡ record { refusal = SheetForm; line = line })) }
{
    let refusal = Refusal::SheetForm;
    s.strip_prefix(names).ok_or(SheetRefusal { refusal, line })
}

// No From: none of the types is this crate's own.
fn envelope_from(settings: Settings, points: Points) -> AutomationEnvelope
    ensures { result ≡ envelope_from settings points }
{
    AutomationEnvelope {
        target: settings.target,
        points,
        enabled: settings.enabled,
        min_value: settings.min,
        max_value: settings.max,
        step_size: settings.step,
        hard: settings.hard,
    }
}

// A sheet's lines, up to where the points end.
#[tactic(auto, unfolding(crate::specs::Sheet::sheet_lines))]
pub(crate) fn sheet_lines(
    s: &[u8],
    program: bool,
) -> Result<(AutomationEnvelope, &[u8]), SheetRefusal>
    ensures { told_lines result ≡ sheet_lines program s.now }
{
    let s = named(s, b"target enabled min max step hard\n", 1)?;
    let (settings, s) = on_line(settings_line(s), 2)?;
    let s = named(s, b"time position value curve cp1 cp2\n", 3)?;
    let (points, s) = point_lines(s, program)?;
    Ok((envelope_from(settings, points), s))
}

// The envelope on the sheet, or the first refusal with its line.
#[tactic(auto, unfolding(crate::specs::Sheet::read_sheet))]
pub fn read_sheet(s: &[u8]) -> Result<AutomationEnvelope, SheetRefusal>
    ensures { told_read result ≡ read_sheet s.now }
{
    let (envelope, _) = sheet_lines(s, false)?;
    Ok(envelope)
}
