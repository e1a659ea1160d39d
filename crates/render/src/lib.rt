// Rendering into a lent buffer, and the walk over the samples, over what is heard of an envelope. Source: envelope.rs (000).
#![tactic(auto)]

ghost use Rattle.std.specs.Prelude.{◌≡◌, true, ◌+◌, ◌≤◌, ◌&&◌, cond, Ok, Err, IfSome, length};
ghost use Rattle.std.specs.Float.{binary64};
ghost use Rattle.std.specs.Float.Ieee.{fits};
ghost use Rattle.numbers.specs.Bounds.{finite};
ghost use Rattle.points.specs.Points.{list_of};
ghost use Rattle.points.specs.Refusal.{said};
ghost use Rattle.points.specs.declared.refusal.Refusal.TheVariants.{NotFinite};
ghost use Rattle.lookup.specs.Runs.{run};
ghost use Rattle.render.specs.Render.{sample_or, sample_at, sample_count, most_samples, run_into, render, to_buffer, iter_samples, next_sample};
ghost use Rattle.lookup.specs.Lookup.{point_at, last_point};
ghost use Rattle.render.specs.Writer.{segment_of, segment_at, inside, Serves, ends_of, outside_at, Written};

use curve::CurveType;
use limits::Limits;
use lookup::{Heard, Valid};
use points::AutomationPoint;
use points::refusal::Refusal;

// 2^32 - 1: what a first sample and a count may add up to.
const MOST_SAMPLES: u64 = 4294967295;

// 000's SampleIterator, without its borrow.
#[derive(Clone, Copy)]
pub struct SampleIterator {
    pub sample_rate: f64,
    pub current_sample: u64,
    pub total_samples: u64,
}

// The way from one point to the next, which serves a stretch of samples: with a search for each, blocks took 1.2 to 1.85 times as long and missed their bars.
#[derive(Clone, Copy)]
struct Segment {
    from: f64,
    to: f64,
    start: f32,
    end: f32,
    curve: CurveType,
}

// The times of the first point and the last, and their values, constrained once for all the samples outside.
#[derive(Clone, Copy)]
struct Ends {
    first: f64,
    early: f32,
    last: f64,
    late: f32,
}

impl Segment {
    // Its times are the points', so they are `f64`s; what serves a run of samples has to say so.
    fn new(p: AutomationPoint, q: AutomationPoint) -> Segment
        ensures value { result ≡ segment_of p q }
        ensures numbers { (fits binary64 p.time ≡ true) × (fits binary64 q.time ≡ true) }
    {
        Segment {
            from: p.time,
            to: q.time,
            start: p.value,
            end: q.value,
            curve: p.curve,
        }
    }

    // Strictly between its ends.
    fn holds(self, time: f64) -> bool
        ensures { result ≡ inside self time }
    {
        (self.from < time) & (time < self.to)
    }

    // The segment before a place, if it holds the time. The first point and the last are looked at too: what serves has to say that their times are `f64`s.
    fn before(valid: &Valid<'_>, place: usize, time: f64) -> Option<Segment>
        ensures { IfSome result (λ s. (inside s time ≡ true) × Serves (list_of valid.now.points) s) }
    {
        let points = valid.heard.points();
        match points {
            [first, .., last] if Segment::new(*first, *last).holds(time) => {
                let p = points.get(place.checked_sub(1)?)?;
                let q = points.get(place)?;
                let way = Segment::new(*p, *q);
                way.holds(time).then_some(way)
            }
            _ => None,
        }
    }

    #[tactic(auto, unfolding(crate::specs::Writer::segment_at, curve::specs::Curve::interpolated, curve::specs::Curve::eased))]
    fn value_at(self, limits: Limits, time: f64) -> f32
        ensures { result ≡ segment_at limits self time }
    {
        let t = lookup::time::fraction(self.from, self.to, time);
        // its controls stay in registers; the other curves are passed on to the call by reference
        if let CurveType::Bezier(cp1, cp2) = self.curve {
            let t_eased = curve::cubic_bezier(t.clamp(0.0, 1.0), cp1, cp2);
            limits.apply_constraints(self.start + (self.end - self.start) * t_eased)
        } else {
            limits.apply_constraints(self.curve.interpolate(self.start, self.end, t))
        }
    }

    // Its values at the samples that are numbered from the first on, written from a place on as long as their times lie inside it; the place after them.
    fn write(self, limits: Limits, rate: f64, first: u32, out: &mut [f32], place: usize) -> usize
        requires { first + length out.old ≤ most_samples }
        ensures { Written self limits rate first place out.old out.new result }
    {
        for i in place..out.len() {
            let time = (first + i as u32) as f64 / rate;
            if !self.holds(time) {
                return i;
            }
            out[i] = self.value_at(limits, time);
        }
        place.max(out.len())
    }
}

impl Ends {
    fn new(limits: Limits, p: AutomationPoint, q: AutomationPoint) -> Ends
        ensures { result ≡ ends_of limits p q }
    {
        Ends {
            first: p.time,
            early: limits.apply_constraints(p.value),
            last: q.time,
            late: limits.apply_constraints(q.value),
        }
    }

    // None between the two, and at a NaN.
    fn value_at(self, time: f64) -> Option<f32>
        ensures { result ≡ outside_at self time }
    {
        if time <= self.first {
            Some(self.early)
        } else if time >= self.last {
            Some(self.late)
        } else {
            None
        }
    }
}

// The samples of an enabled envelope of two points or more. Each segment is searched for once and serves while the times stay inside it. A `while`: a turn writes any number of samples.
#[tactic(auto, using(lookup::proofs::RunLaws::run_places))]
fn write_segments(
    valid: &Valid<'_>,
    ends: Ends,
    rate: f64,
    first: u32,
    silent: f32,
    out: &mut [f32],
)
    requires enabled { valid.now.enabled ≡ true }
    requires two { 2 ≤ length (list_of valid.now.points) }
    requires ends { ends ≡ ends_of valid.now.limits (point_at (list_of valid.now.points) 0) (last_point (list_of valid.now.points)) }
    requires few { first + length out.old ≤ most_samples }
    ensures { out.new ≡ run (sample_or silent valid.now.points valid.now.enabled valid.now.limits rate) first (length out.old) }
{
    let heard = valid.heard;
    let limits = heard.limits;
    let mut i = 0;
    // the place that is tried first: after the one before
    let mut guess = 0;
    while i < out.len() {
        let time = (first + i as u32) as f64 / rate;
        if let Some(v) = ends.value_at(time) {
            out[i] = v;
            i += 1;
        } else {
            let place = valid.place_by_guess(guess, time);
            guess = place.saturating_add(1);
            if let Some(s) = Segment::before(valid, place, time) {
                i = s.write(limits, rate, first, out, i);
            } else {
                out[i] = valid.value_near(time, place).unwrap_or(silent);
                i += 1;
            }
        }
    }
}

// The sample writer: the samples from the first on, one for each place, and where one is silent the number `silent`, which `run_into` states: 0.0.
#[tactic(auto, using(crate::proofs::Writing::heard_same, lookup::proofs::RunLaws::run_everywhere))]
fn write_samples(valid: &Valid<'_>, rate: f64, first: u32, silent: f32, out: &mut [f32])
    requires { first + length out.old ≤ most_samples }
    ensures { out.new ≡ run (sample_or silent valid.now.points valid.now.enabled valid.now.limits rate) first (length out.old) }
{
    let heard = valid.heard;
    match heard.points() {
        [p, .., q] if heard.enabled => {
            let ends = Ends::new(heard.limits, *p, *q);
            write_segments(valid, ends, rate, first, silent, out);
        }
        // the same at every time
        _ => out.fill(valid.value_at(0.0).unwrap_or(silent)),
    }
}

// A run at a finite rate, with the refusals that are left. The whole buffer with the place in it: 8 asks for room from there on, and the places before it stay.
#[tactic(auto, unfolding(crate::specs::Render::run_into))]
fn run_into(
    valid: &Valid<'_>,
    rate: f64,
    first: u64,
    count: u64,
    out: &mut [f32],
    place: usize,
) -> Result<(), Refusal>
    ensures answer { said result ≡ (run_into (sample_at valid.now.points valid.now.enabled valid.now.limits rate) first count place out.old).said }
    ensures out_after { out.new ≡ (run_into (sample_at valid.now.points valid.now.enabled valid.now.limits rate) first count place out.old).buffer }
{
    if first.saturating_add(count) > MOST_SAMPLES {
        return Err(Refusal::TooManySamples);
    }
    let n = count as usize;
    if n > out.len().saturating_sub(place) {
        return Err(Refusal::NoRoom);
    }
    if n > 0 {
        write_samples(valid, rate, first as u32, 0.0, &mut out[place..place + n]);
    }
    Ok(())
}

// As many samples as the duration has at the rate.
fn sample_count(rate: f64, duration: f64) -> Result<u64, Refusal>
    ensures { result ≡ cond (finite rate && finite duration) (Ok (sample_count rate duration)) (Err NotFinite) }
{
    if !(rate.is_finite() & duration.is_finite()) {
        return Err(Refusal::NotFinite);
    }
    Ok(std::num::saturating_f64_to_u64(duration * rate))
}

// Writes count samples, from the first on, into the buffer's places from the stated one on.
#[tactic(auto, unfolding(crate::specs::Render::render))]
pub fn render(
    heard: &Heard<'_>,
    rate: f64,
    first: u64,
    count: u64,
    out: &mut [f32],
    place: usize,
) -> Result<(), Refusal>
    ensures answer { said result ≡ (render heard.now.points heard.now.enabled heard.now.limits rate first count place out.old).said }
    ensures out_after { out.new ≡ (render heard.now.points heard.now.enabled heard.now.limits rate first count place out.old).buffer }
{
    let valid = heard.valid()?;
    if !rate.is_finite() {
        return Err(Refusal::NotFinite);
    }
    run_into(&valid, rate, first, count, out, place)
}

// 000's to_buffer.
#[tactic(auto, unfolding(crate::specs::Render::to_buffer))]
pub fn to_buffer(
    heard: &Heard<'_>,
    rate: f64,
    duration: f64,
    out: &mut [f32],
    place: usize,
) -> Result<(), Refusal>
    ensures answer { said result ≡ (to_buffer heard.now.points heard.now.enabled heard.now.limits rate duration place out.old).said }
    ensures out_after { out.new ≡ (to_buffer heard.now.points heard.now.enabled heard.now.limits rate duration place out.old).buffer }
{
    let valid = heard.valid()?;
    let count = sample_count(rate, duration)?;
    run_into(&valid, rate, 0, count, out, place)
}

// 000's iter_samples.
#[tactic(auto, unfolding(crate::specs::Render::iter_samples))]
pub fn iter_samples(heard: &Heard<'_>, rate: f64, duration: f64) -> Result<SampleIterator, Refusal>
    ensures { said result ≡ iter_samples heard.now.points heard.now.limits rate duration }
{
    heard.valid()?;
    let total_samples = sample_count(rate, duration)?;
    if total_samples > MOST_SAMPLES {
        return Err(Refusal::TooManySamples);
    }
    Ok(SampleIterator {
        sample_rate: rate,
        current_sample: 0,
        total_samples,
    })
}

impl SampleIterator {
    // The sample at the place, which is passed even where it is silent; none past the last.
    #[tactic(auto, unfolding(crate::specs::Render::next_sample))]
    pub fn next(&mut self, heard: &Heard<'_>) -> Result<Option<f32>, Refusal>
        ensures answer { said result ≡ (next_sample heard.now.points heard.now.enabled heard.now.limits self.old).said }
        ensures walk_after { self.new ≡ (next_sample heard.now.points heard.now.enabled heard.now.limits self.old).walk }
    {
        let valid = heard.valid()?;
        if !self.sample_rate.is_finite() {
            return Err(Refusal::NotFinite);
        }
        if self.total_samples > MOST_SAMPLES {
            return Err(Refusal::TooManySamples);
        }
        if self.current_sample >= self.total_samples {
            return Ok(None);
        }
        let time = self.current_sample as f64 / self.sample_rate;
        self.current_sample += 1;
        Ok(valid.value_at(time))
    }
}
