// Packing an envelope into lent words.
ghost use Rattle.std.specs.Prelude.{◌≡◌, ◌++◌, ◌+◌, ◌≤◌, length, drop};
ghost use Rattle.points.specs.Refusal.{said};
ghost use Rattle.state.specs.State.{halves, limit_bits, flags, bounds_word, controls_word, value_word, pack_settings, pack_point, pack, state_over, write_state};

use crate::{POINT, SETTINGS, STATE_WORDS};
use curve::CurveType;
use envelope::AutomationEnvelope;
use limits::Limits;
use points::AutomationPoint;
use points::refusal::Refusal;
use std::num::{f32_to_bits_with_nan, f64_to_bits_with_nan};

// A limit's bits, or 0. A closure: the check does not admit this function of the library by its name.
fn limit_bits(l: Option<f32>) -> u32
    ensures { result ≡ limit_bits l }
{
    l.map_or(0, |x| f32_to_bits_with_nan(x))
}

// ---- the words

// The word of its halves.
fn halves(high: u32, low: u32) -> u64
    ensures { result ≡ halves high low }
{
    u64::from(high) * 0x1_0000_0000 + u64::from(low)
}

// The flags, and the target.
fn flags_word(target: u32, enabled: bool, limits: Limits) -> u64
    ensures { result ≡ halves (flags enabled limits) target }
{
    halves(
        u32::from(enabled)
            + 2 * u32::from(limits.min_value.is_some())
            + 4 * u32::from(limits.max_value.is_some())
            + 8 * u32::from(limits.step_size.is_some())
            + 16 * u32::from(limits.hard),
        target,
    )
}

// The maximum and the minimum.
fn bounds_word(limits: Limits) -> u64
    ensures { result ≡ bounds_word limits }
{
    halves(limit_bits(limits.max_value), limit_bits(limits.min_value))
}

// The control numbers of a curve.
fn controls_word(curve: CurveType) -> u64
    ensures { result ≡ controls_word curve }
{
    let controls = curve.controls();
    halves(
        f32_to_bits_with_nan(controls.cp2),
        f32_to_bits_with_nan(controls.cp1),
    )
}

// The curve's number, whether there is a position, and the value.
#[tactic(auto, using(curve::proofs::Laws::code_lt))]
fn value_word(p: AutomationPoint) -> u64
    ensures { result ≡ value_word p }
{
    halves(
        p.curve.code() * 2 + u32::from(p.sample_position.is_some()),
        f32_to_bits_with_nan(p.value),
    )
}

#[tactic(auto, unfolding(crate::specs::State::pack_settings))]
pub(crate) fn settings_words(envelope: &AutomationEnvelope) -> [u64; 4]
    ensures { result ≡ pack_settings envelope.now }
{
    let limits = envelope.limits();
    [
        flags_word(envelope.target, envelope.enabled, limits),
        envelope.points.count as u64,
        bounds_word(limits),
        u64::from(limit_bits(envelope.step_size)),
    ]
}

#[tactic(auto, unfolding(crate::specs::State::pack_point))]
pub(crate) fn point_words(p: AutomationPoint) -> [u64; 4]
    ensures { result ≡ pack_point p }
{
    [
        f64_to_bits_with_nan(p.time),
        p.sample_position.unwrap_or(0),
        controls_word(p.curve),
        value_word(p),
    ]
}

// ---- the stores

fn put_state(envelope: &AutomationEnvelope, words: &mut [u64])
    requires { 1028 ≤ length words.old }
    ensures { words.new ≡ pack envelope.now ++ drop 1028 words.old }
{
    words[..SETTINGS].copy_from_slice(&settings_words(envelope));
    // by place: of what is written through `chunks_exact_mut` a proof knows the length alone; and over a slice, which tells it that there are 256
    for (i, p) in envelope.points.places[..].iter().enumerate() {
        let at = SETTINGS + POINT * i;
        words[at..at + POINT].copy_from_slice(&point_words(*p));
    }
}

// The envelope's state from the start of the lent words, if they have room; else they stay as they are. The crates above use it where they have tested
// the envelope: every envelope packs.
#[tactic(auto, unfolding(crate::specs::State::state_over))]
pub fn fit_state(envelope: &AutomationEnvelope, words: &mut [u64])
    ensures { words.new ≡ state_over envelope.now words.old }
{
    if words.len() >= STATE_WORDS {
        put_state(envelope, words);
    }
}

// The same with the refusals of a call: 1, then 8.
#[tactic(auto, unfolding(crate::specs::State::write_state))]
pub fn write_state(envelope: &AutomationEnvelope, words: &mut [u64]) -> Result<(), Refusal>
    ensures answer { said result ≡ (write_state envelope.now words.old).said }
    ensures words_after { words.new ≡ (write_state envelope.now words.old).words }
{
    if !envelope.is_valid() {
        return Err(Refusal::NotValid);
    }
    if words.len() < STATE_WORDS {
        return Err(Refusal::NoRoom);
    }
    put_state(envelope, words);
    Ok(())
}
