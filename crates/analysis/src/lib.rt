// Ranges, slope, peaks and valleys, over what is heard of an envelope. Source: envelope.rs (000).
#![tactic(auto)]

ghost use Rattle.std.specs.Prelude.{◌≡◌, ℕ, Float, Option, ◌+◌, ◌*◌, ◌/◌, ◌<◌, ◌≤◌, ◌++◌, max, map, fold, length, drop};
ghost use Rattle.points.specs.Middles.{middles};
ghost use Rattle.points.specs.Point.{time_of};
ghost use Rattle.points.specs.Refusal.{said};
ghost use Rattle.lookup.specs.Runs.{run};
ghost use Rattle.analysis.specs.Analysis.{given_values, raw_inside, get_range, get_range_samples, slope_of, get_slope_at, is_peak, is_valley, find_middles};
ghost use Rattle.analysis.specs.Ranges.{no_values, widen, add_value, as_range, middle_test, value_of};

use lookup::Heard;
use points::AutomationPoint;
use points::refusal::Refusal;

// The least and the greatest value so far.
#[derive(Clone, Copy)]
struct Bounds {
    low: f32,
    high: f32,
}

// What `find_middles` looks for.
#[derive(Clone, Copy)]
enum Extreme {
    Peak,
    Valley,
}

// ---- ranges

impl Bounds {
    // Before any value: the infinities.
    fn none() -> Bounds
        ensures { result ≡ no_values }
    {
        Bounds {
            low: f32::INFINITY,
            high: f32::NEG_INFINITY,
        }
    }

    // With one more value.
    fn widen(self, v: f32) -> Bounds
        ensures { result ≡ widen self v }
    {
        Bounds {
            low: numbers::order::min(self.low, v),
            high: numbers::order::max(self.high, v),
        }
    }

    // With one more lookup's, if it isn't silent.
    fn add(self, value: Option<f32>) -> Bounds
        ensures { result ≡ add_value self value }
    {
        value.map_or(self, |v| self.widen(v))
    }

    // What lookups at so many stops give. A plain `for`: each closure of a chain would have to pass on what `value` asks.
    fn of<F: Fn(u64) -> Option<f32>>(stops: u64, value: F) -> Bounds
        requires { (k : ℕ) → k < stops → F.pre value k }
        ensures { (f : ℕ → Option Float) → ((k : ℕ) (v : Option Float) → k < stops → F.post value k v → v ≡ f k)
            → result ≡ fold widen no_values (given_values (run f 0 stops)) }
    {
        let mut bounds = Bounds::none();
        for k in 0..stops {
            bounds = bounds.add(value(k));
        }
        bounds
    }

    // With the values of points inside, raw.
    #[tactic(auto, unfolding(crate::specs::Analysis::raw_inside))]
    fn inside(self, points: &[AutomationPoint], start: f64, end: f64) -> Bounds
        ensures { result ≡ fold widen self (raw_inside start end points.now) }
    {
        points
            .iter()
            .filter(|p| (start <= p.time) & (p.time <= end))
            .map(|p| p.value)
            .fold(self, |bounds, v| bounds.widen(v))
    }

    // None if the least isn't finite.
    fn range(self) -> Option<(f32, f32)>
        ensures { result ≡ as_range self }
    {
        self.low.is_finite().then_some((self.low, self.high))
    }
}

// 000's get_range.
#[tactic(auto, unfolding(crate::specs::Analysis::get_range))]
pub fn get_range(
    heard: &Heard<'_>,
    start_time: f64,
    end_time: f64,
) -> Result<Option<(f32, f32)>, Refusal>
    ensures { said result ≡ get_range heard.now.points heard.now.enabled heard.now.limits start_time end_time }
{
    let valid = heard.valid()?;
    if !(start_time.is_finite() & end_time.is_finite()) {
        return Err(Refusal::NotFinite);
    }
    let step = (end_time - start_time) / 100.0;
    let lookups = Bounds::of(101, |i| valid.value_at(start_time + step * i as f64));
    Ok(lookups.inside(heard.points(), start_time, end_time).range())
}

// The larger of 1 and a hundredth of the span.
fn sample_step(span: u64) -> u64
    ensures { result ≡ max 1 (span / 100) }
{
    (span / 100).max(1)
}

// 000's get_range_samples.
#[tactic(auto, unfolding(crate::specs::Analysis::get_range_samples))]
pub fn get_range_samples(
    heard: &Heard<'_>,
    start_sample: u64,
    end_sample: u64,
) -> Result<Option<(f32, f32)>, Refusal>
    ensures { said result ≡ get_range_samples heard.now.points heard.now.enabled heard.now.limits start_sample end_sample }
{
    let valid = heard.valid()?;
    if start_sample > end_sample {
        return Err(Refusal::BoundsCross);
    }
    let span = end_sample - start_sample;
    let step = sample_step(span);
    let last = start_sample + span / step * step;
    // the place after the last one looked at
    if last.checked_add(step).is_none() {
        return Err(Refusal::TooManySamples);
    }
    let keyed = valid.keyed()?;
    let keys = lookup::place::keys::<u64>(heard.points());
    let lookups = Bounds::of(
        span / step + 1,
        |k| keyed.value_by_keys(&keys, start_sample + k * step),
    );
    Ok(lookups.range())
}

// ---- slope

// As many points as a slope needs; with fewer it is 0.0.
const SLOPE_POINTS: usize = 2;

// How far before and after the lookups are.
const DELTA: f64 = 0.001;

// The quotient of two values' difference and 0.002 in f32; silent where either is.
#[tactic(auto, unfolding(crate::specs::Analysis::slope_of))]
fn slope(before: Option<f32>, after: Option<f32>) -> Option<f32>
    ensures { result ≡ slope_of before after }
{
    before.zip(after).map(|(v, w)| (w - v) / numbers::convert::f64_to_f32(2.0 * DELTA))
}

// 000's get_slope_at.
#[tactic(auto, unfolding(crate::specs::Analysis::get_slope_at))]
pub fn get_slope_at(heard: &Heard<'_>, time: f64) -> Result<Option<f32>, Refusal>
    ensures { said result ≡ get_slope_at heard.now.points heard.now.enabled heard.now.limits time }
{
    let valid = heard.valid()?;
    if heard.points().len() < SLOPE_POINTS {
        return Ok(Some(0.0));
    }
    Ok(slope(valid.value_at(time - DELTA), valid.value_at(time + DELTA)))
}

// ---- peaks and valleys

impl Extreme {
    // Whether b is one between a and c.
    fn is_at(self, a: AutomationPoint, b: AutomationPoint, c: AutomationPoint) -> bool
        ensures { result ≡ middle_test self a b c }
    {
        match self {
            Extreme::Peak => (b.value > a.value) & (b.value > c.value),
            Extreme::Valley => (b.value < a.value) & (b.value < c.value),
        }
    }

    // How many of them there are.
    fn count(self, points: &[AutomationPoint]) -> usize
        ensures { result ≡ length (middles (middle_test self) points.now) }
    {
        points
            .array_windows::<3>()
            .filter(|[a, b, c]| self.is_at(*a, *b, *c))
            .count()
    }

    // Their times and their values, from the start of the two lists.
    fn write(self, points: &[AutomationPoint], times: &mut [f64], values: &mut [f32])
        requires times_room { length (middles (middle_test self) points.now) ≤ length times.old }
        requires values_room { length (middles (middle_test self) points.now) ≤ length values.old }
        ensures times_after { times.new ≡ map time_of (middles (middle_test self) points.now) ++ drop (length (middles (middle_test self) points.now)) times.old }
        ensures values_after { values.new ≡ map value_of (middles (middle_test self) points.now) ++ drop (length (middles (middle_test self) points.now)) values.old }
    {
        let found = points
            .array_windows::<3>()
            .filter(|[a, b, c]| self.is_at(*a, *b, *c));
        // by place: of what is written through a zip of the two `iter_mut` a proof knows nothing
        for (k, [_, b, _]) in found.enumerate() {
            times[k] = b.time;
            values[k] = b.value;
        }
    }
}

// The search that both share.
#[tactic(auto, unfolding(crate::specs::Analysis::find_middles))]
fn find_middles(
    heard: &Heard<'_>,
    extreme: Extreme,
    times: &mut [f64],
    values: &mut [f32],
) -> Result<usize, Refusal>
    ensures answer { said result ≡ (find_middles (middle_test extreme) heard.now.points heard.now.limits times.old values.old).said }
    ensures times_after { times.new ≡ (find_middles (middle_test extreme) heard.now.points heard.now.limits times.old values.old).times }
    ensures values_after { values.new ≡ (find_middles (middle_test extreme) heard.now.points heard.now.limits times.old values.old).values }
{
    heard.valid()?;
    let n = extreme.count(heard.points());
    if n > times.len() || n > values.len() {
        return Err(Refusal::NoRoom);
    }
    extreme.write(heard.points(), times, values);
    Ok(n)
}

// 000's find_peaks: times and values from the start of the two lists.
pub fn find_peaks(
    heard: &Heard<'_>,
    times: &mut [f64],
    values: &mut [f32],
) -> Result<usize, Refusal>
    ensures answer { said result ≡ (find_middles is_peak heard.now.points heard.now.limits times.old values.old).said }
    ensures times_after { times.new ≡ (find_middles is_peak heard.now.points heard.now.limits times.old values.old).times }
    ensures values_after { values.new ≡ (find_middles is_peak heard.now.points heard.now.limits times.old values.old).values }
{
    find_middles(heard, Extreme::Peak, times, values)
}

// 000's find_valleys.
pub fn find_valleys(
    heard: &Heard<'_>,
    times: &mut [f64],
    values: &mut [f32],
) -> Result<usize, Refusal>
    ensures answer { said result ≡ (find_middles is_valley heard.now.points heard.now.limits times.old values.old).said }
    ensures times_after { times.new ≡ (find_middles is_valley heard.now.points heard.now.limits times.old values.old).times }
    ensures values_after { values.new ≡ (find_middles is_valley heard.now.points heard.now.limits times.old values.old).values }
{
    find_middles(heard, Extreme::Valley, times, values)
}
