// The envelopes that are measured, made of lent lists, and what is shown of one.
use curve::CurveType;
use envelope::AutomationEnvelope;
use points::AutomationPoint;
use points::refusal::Refusal;

pub(crate) fn curve_of(code: u32) -> CurveType {
    CurveType::from_code(code, 0.5, 1.0)
}

pub(crate) fn point(time: f64, value: f32, curve: CurveType) -> AutomationPoint {
    AutomationPoint::with_curve(time, value, curve)
}

// A point for each time, with its value and the curve of that code; as many as there are in both lists and in an envelope.
pub(crate) fn made(times: &[f64], values: &[f32], code: u32) -> AutomationEnvelope {
    let curve = curve_of(code);
    let mut points = points::list::none();
    for (time, value) in times.iter().zip(values).take(256) {
        points.push(point(*time, *value, curve));
    }
    AutomationEnvelope {
        points,
        ..AutomationEnvelope::new(7)
    }
}

// The same with both limits and a step.
pub(crate) fn limited(
    e: &AutomationEnvelope,
    min: f32,
    max: f32,
    step: f32,
    hard: bool,
) -> AutomationEnvelope {
    AutomationEnvelope {
        min_value: Some(min),
        max_value: Some(max),
        step_size: Some(step),
        hard,
        ..*e
    }
}

// Fills the lists with the places' times and values; the count, 16 times.
pub(crate) fn shown(e: &AutomationEnvelope, times: &mut [f64], values: &mut [f32]) -> u64 {
    for ((p, time), value) in e.points.places.iter().zip(times).zip(values) {
        *time = p.time;
        *value = p.value;
    }
    e.points.used() as u64 * 16
}

// A count, or 1,000 for a refusal.
pub(crate) fn counted(answer: Result<usize, Refusal>) -> u64 {
    match answer {
        Ok(n) => n as u64,
        Err(_) => 1000,
    }
}
