// The sheet writer, into lent bytes. Each function that puts something returns the place after it.
ghost use Rattle.std.specs.Prelude.{◌≡◌, ◌+◌, ◌≤◌, length};
ghost use Rattle.points.specs.Refusal.{said};
ghost use Rattle.fields.specs.Text.{optional_text};
ghost use Rattle.fields.specs.Told.{Put};
ghost use Rattle.sheet.specs.Text.{settings_text, controls_text, point_text, limit_bits, raw_settings, raw_point, point_texts, sheet_text, write_sheet};

use envelope::AutomationEnvelope;
use fields::write::{fit_bits, fit_decimal, fit_digits, fit_flag, fit_hex, fit_optional, fit_text};
use lines::point::{BEZIER, RawPoint};
use lines::settings::RawSettings;
use points::AutomationPoint;
use points::refusal::Refusal;
use std::num::{f32_to_bits_with_nan, f64_to_bits_with_nan};

// The two last fields of a point's line.
fn put_controls(out: &mut [u8], at: usize, r: RawPoint) -> usize
    requires { at + length (controls_text r.curve r.cp1 r.cp2) ≤ length out.old }
    ensures { Put out.old at (controls_text r.curve r.cp1 r.cp2) out.new result }
{
    if r.curve == BEZIER {
        let next = fit_bits(out, at, r.cp1, b' ');
        fit_bits(out, next, r.cp2, b'\n')
    } else {
        fit_text(out, at, b"- -\n")
    }
}

// The same bits as a number of 64: the field of an optional number serves positions too.
fn wide(bits: Option<u32>) -> Option<u64>
    ensures { result ≡ bits }
{
    bits.map(u64::from)
}

// A point's line.
fn put_point(out: &mut [u8], at: usize, r: RawPoint) -> usize
    requires { at + length (point_text r) ≤ length out.old }
    ensures { Put out.old at (point_text r) out.new result }
{
    let a = fit_hex(out, at, r.time, 16, b' ');
    let b = fit_optional(out, a, r.position, 16, b' ');
    let c = fit_bits(out, b, r.value, b' ');
    let d = fit_digits(out, c, u64::from(r.curve), 2, b' ');
    put_controls(out, d, r)
}

// The settings line.
fn put_settings(out: &mut [u8], at: usize, r: RawSettings) -> usize
    requires { at + length (settings_text r) ≤ length out.old }
    ensures { Put out.old at (settings_text r) out.new result }
{
    let a = fit_decimal(out, at, r.target, b' ');
    let b = fit_flag(out, a, r.enabled, b' ');
    let c = fit_optional(out, b, wide(r.min), 8, b' ');
    let d = fit_optional(out, c, wide(r.max), 8, b' ');
    let e = fit_optional(out, d, wide(r.step), 8, b' ');
    fit_flag(out, e, r.hard, b'\n')
}

// ---- from the records to their bits. No From: neither type is this crate's own.

// A closure: the check does not admit this function of the library by its name.
fn limit_bits(limit: Option<f32>) -> Option<u32>
    ensures { result ≡ limit_bits limit }
{
    limit.map(|x| f32_to_bits_with_nan(x))
}

#[tactic(auto, unfolding(crate::specs::Text::raw_settings))]
fn raw_settings(e: &AutomationEnvelope) -> RawSettings
    ensures { result ≡ raw_settings e.now }
{
    RawSettings {
        target: e.target,
        enabled: u32::from(e.enabled),
        min: limit_bits(e.min_value),
        max: limit_bits(e.max_value),
        step: limit_bits(e.step_size),
        hard: u32::from(e.hard),
    }
}

#[tactic(auto, unfolding(crate::specs::Text::raw_point))]
fn raw_point(p: AutomationPoint) -> RawPoint
    ensures { result ≡ raw_point p }
{
    let c = p.curve.controls();
    RawPoint {
        time: f64_to_bits_with_nan(p.time),
        position: p.sample_position,
        value: f32_to_bits_with_nan(p.value),
        curve: p.curve.code(),
        cp1: f32_to_bits_with_nan(c.cp1),
        cp2: f32_to_bits_with_nan(c.cp2),
    }
}

// ---- how long the sheet is

#[tactic(auto, using(crate::proofs::Texts::lengths), unfolding(fields::specs::Text::optional_text))]
fn optional_length(p: Option<u64>, width: usize) -> usize
    requires { width ≤ 16 }
    ensures { result ≡ length (optional_text width 0 p) }
{
    p.map_or(2, |_| width + 1)
}

#[tactic(auto, using(crate::proofs::Texts::lengths))]
fn settings_length(r: RawSettings) -> usize
    ensures { result ≡ length (settings_text r) }
{
    fields::write::places_of(r.target)
        + 5
        + optional_length(wide(r.min), 8)
        + optional_length(wide(r.max), 8)
        + optional_length(wide(r.step), 8)
}

#[tactic(auto, using(crate::proofs::Texts::lengths))]
fn controls_length(r: RawPoint) -> usize
    ensures { result ≡ length (controls_text r.curve r.cp1 r.cp2) }
{
    if r.curve == BEZIER { 18 } else { 4 }
}

#[tactic(auto, using(crate::proofs::Texts::lengths))]
fn point_length(r: RawPoint) -> usize
    ensures text { result ≡ length (point_text r) }
    ensures small { result ≤ 65 }
{
    29 + optional_length(r.position, 16) + controls_length(r)
}

#[tactic(auto, using(crate::proofs::Texts::texts_sum))]
fn points_length(points: &[AutomationPoint]) -> usize
    requires { length points.now ≤ 256 }
    ensures { result ≡ length (point_texts points.now) }
{
    points.iter().map(|p| point_length(raw_point(*p))).sum()
}

fn sheet_length(e: &AutomationEnvelope) -> usize
    requires { e.now.points.count ≤ 256 }
    ensures { result ≡ length (sheet_text e.now) }
{
    // the names above the settings have 33 bytes, those above the points 34
    33 + settings_length(raw_settings(e)) + 34 + points_length(e.points.as_slice())
}

// ---- the whole sheet

// The points' lines. A plain `for`: each line starts where the last one ended.
fn put_points(out: &mut [u8], start: usize, points: &[AutomationPoint]) -> usize
    requires { start + length (point_texts points.now) ≤ length out.old }
    ensures { Put out.old start (point_texts points.now) out.new result }
{
    let mut at = start;
    for p in points {
        at = put_point(out, at, raw_point(*p));
    }
    at
}

fn put_sheet(out: &mut [u8], e: &AutomationEnvelope) -> usize
    requires { length (sheet_text e.now) ≤ length out.old }
    ensures { Put out.old 0 (sheet_text e.now) out.new result }
{
    let a = fit_text(out, 0, b"target enabled min max step hard\n");
    let b = put_settings(out, a, raw_settings(e));
    let c = fit_text(out, b, b"time position value curve cp1 cp2\n");
    put_points(out, c, e.points.as_slice())
}

// The envelope's sheet from the start of the lent bytes; the places after it stay. Says how many bytes it has.
#[tactic(auto, using(crate::proofs::Texts::few), unfolding(crate::specs::Text::write_sheet))]
pub fn write_sheet(envelope: &AutomationEnvelope, out: &mut [u8]) -> Result<usize, Refusal>
    ensures answer { said result ≡ (write_sheet envelope.now out.old).said }
    ensures out_after { out.new ≡ (write_sheet envelope.now out.old).bytes }
{
    if !envelope.is_valid() {
        return Err(Refusal::NotValid);
    }
    if out.len() < sheet_length(envelope) {
        return Err(Refusal::NoRoom);
    }
    Ok(put_sheet(out, envelope))
}
