// Reading an envelope from lent words.
ghost use Rattle.std.specs.Prelude.{◌≡◌, if◌then◌else◌, ◌<◌, ◌≤◌, eqb, length, drop};
ghost use Rattle.points.specs.Points.{every_pair};
ghost use Rattle.points.specs.Refusal.{said};
ghost use Rattle.points.specs.declared.refusal.Refusal.TheVariants.{StoredState};
ghost use Rattle.state.specs.State.{high, low, bit, limit_of, point_of, pack_points, points_of, state_of, read_state};

use crate::write::{point_words, settings_words};
use crate::{POINT, SETTINGS, STATE_WORDS};
use curve::CurveType;
use envelope::AutomationEnvelope;
use points::refusal::Refusal;
use points::{AutomationPoint, Points};
use std::num::{f32_from_bits_with_nan, f64_from_bits_with_nan};

// The halves of a word: docs/STATE.md lays a state out in these and in bits, and specs/ says both by division.
fn high(w: u64) -> u32
    ensures { result ≡ high w }
{
    (w / 0x1_0000_0000) as u32
}

fn low(w: u64) -> u32
    ensures { result ≡ low w }
{
    (w % 0x1_0000_0000) as u32
}

// The bit of worth d.
fn bit(d: u32, n: u32) -> bool
    requires { 0 < d }
    ensures { result ≡ bit d n }
{
    n / d % 2 == 1
}

fn limit_of(has: bool, bits: u32) -> Option<f32>
    ensures { result ≡ limit_of has bits }
{
    has.then(|| f32_from_bits_with_nan(bits))
}

// The point of its words.
#[tactic(auto, unfolding(crate::specs::State::point_of))]
fn read_point(words: &[u64]) -> AutomationPoint
    requires { 4 ≤ length words.now }
    ensures { result ≡ point_of words.now }
{
    let (controls, value) = (words[2], words[3]);
    let tag = high(value);
    AutomationPoint {
        time: f64_from_bits_with_nan(words[0]),
        sample_position: bit(1, tag).then_some(words[1]),
        value: f32_from_bits_with_nan(low(value)),
        curve: CurveType::from_code(
            tag / 2,
            f32_from_bits_with_nan(low(controls)),
            f32_from_bits_with_nan(high(controls)),
        ),
    }
}

// The places of a state, if they pack to the same words.
fn read_places(words: &[u64]) -> Result<[AutomationPoint; 256], Refusal>
    requires { length words.now ≡ 1024 }
    ensures { result ≡ (if every_pair eqb (pack_points (points_of 256 words.now)) words.now then Ok (points_of 256 words.now) else Err StoredState) }
{
    let mut places = [points::point::unused(); 256];
    // by place: of what is written through a zip of `iter_mut` a proof knows nothing
    for (i, w) in words.chunks_exact(POINT).enumerate() {
        // words that are all 0 are an unused place's, which stands there already
        if w != [0; POINT].as_slice() {
            let p = read_point(w);
            if point_words(p).as_slice() != w {
                return Err(Refusal::StoredState);
            }
            places[i] = p;
        }
    }
    Ok(places)
}

// The envelope that stands in the words, with its places read before.
#[tactic(auto, unfolding(crate::specs::State::state_of))]
fn with_places(words: &[u64], places: [AutomationPoint; 256]) -> AutomationEnvelope
    requires whole { length words.now ≡ 1028 }
    requires read { places ≡ points_of 256 (drop 4 words.now) }
    ensures { result ≡ state_of words.now }
{
    let (first, bounds) = (words[0], words[2]);
    let flags = high(first);
    AutomationEnvelope {
        target: low(first),
        points: Points {
            count: words[1] as usize,
            places,
        },
        enabled: bit(1, flags),
        min_value: limit_of(bit(2, flags), low(bounds)),
        max_value: limit_of(bit(4, flags), high(bounds)),
        step_size: limit_of(bit(8, flags), low(words[3])),
        hard: bit(16, flags),
    }
}

// The envelope of a stored state.
#[tactic(auto, using(crate::proofs::Calls::read_is, crate::proofs::Calls::read_other))]
pub fn read_state(words: &[u64]) -> Result<AutomationEnvelope, Refusal>
    ensures { said result ≡ read_state words.now }
{
    if words.len() != STATE_WORDS {
        return Err(Refusal::StoredState);
    }
    let (settings, points) = words.split_at(SETTINGS);
    let envelope = with_places(words, read_places(points)?);
    if envelope.is_valid() && settings_words(&envelope).as_slice() == settings {
        Ok(envelope)
    } else {
        Err(Refusal::StoredState)
    }
}
