// The point and the list of points: 256 places and a count, by value. Source: envelope.rs (000).
#![tactic(auto)]

pub mod build;
pub mod list;
pub mod point;
pub mod refusal;

use curve::CurveType;

#[derive(Clone, Copy)]
pub struct AutomationPoint {
    pub time: f64,
    pub sample_position: Option<u64>,
    pub value: f32,
    // the curve to the next point
    pub curve: CurveType,
}

// 000's Vec of points: 01 has 256 places and a count. Both are open, so a count may be any number; `is_valid` tests it.
#[derive(Clone, Copy)]
pub struct Points {
    pub count: usize,
    pub places: [AutomationPoint; 256],
}
