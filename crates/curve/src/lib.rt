// Source 001: the curves between two points.
#![tactic(auto)]

ghost use Rattle.std.specs.Prelude.{◌≡◌};
ghost use Rattle.curve.specs.Curve.{clamped, cubic_bezier, in_out, quad_in_out, stepped, bounced, eased, interpolated, code, is_linear, controls, curve_of, finite_controls, same_curve};
ghost use Rattle.curve.specs.declared.CurveType.TheVariants.{CubicInOut, QuartInOut, QuintInOut};

#[derive(Clone, Copy, Debug, PartialEq)]
pub enum CurveType {
    Linear,
    Exponential,
    Logarithmic,
    SCurve,
    Stepped,
    Bezier(f32, f32),
    Bounce,
    Back,
    Circular,
    QuadIn,
    QuadOut,
    QuadInOut,
    CubicIn,
    CubicOut,
    CubicInOut,
    QuartIn,
    QuartOut,
    QuartInOut,
    QuintIn,
    QuintOut,
    QuintInOut,
}

// The control numbers of a Bezier curve; 0.0 for the others.
#[derive(Clone, Copy, Debug, PartialEq)]
pub struct Controls {
    pub cp1: f32,
    pub cp2: f32,
}

// B(t) = (1-t)³·0 + 3(1-t)²t·cp1 + 3(1-t)t²·cp2 + t³·1
#[tactic(auto, unfolding(crate::specs::Curve::cubic_bezier))]
pub fn cubic_bezier(t: f32, cp1: f32, cp2: f32) -> f32
    ensures { result ≡ cubic_bezier t cp1 cp2 }
{
    let t2 = t * t;
    let t3 = t2 * t;
    let mt = 1.0 - t;
    let mt2 = mt * mt;
    3.0 * mt2 * t * cp1 + 3.0 * mt * t2 * cp2 + t3
}

// What the in-out curves share: `early` below 0.5, and from there 1.0 less half of `late`.
#[tactic(auto, unfolding(crate::specs::Curve::in_out))]
fn in_out(t: f32, early: f32, late: f32) -> f32
    ensures { result ≡ in_out t early late }
{
    if t < 0.5 { early } else { 1.0 - late / 2.0 }
}

#[tactic(auto, unfolding(crate::specs::Curve::quad_in_out))]
fn quad_in_out(t: f32) -> f32
    ensures { result ≡ quad_in_out t }
{
    let u = -2.0 * t + 2.0;
    in_out(t, 2.0 * t * t, u * u)
}

#[tactic(auto, unfolding(crate::specs::Curve::eased))]
fn cubic_in_out(t: f32) -> f32
    ensures { result ≡ eased CubicInOut t }
{
    let u = -2.0 * t + 2.0;
    in_out(t, 4.0 * t * t * t, u * u * u)
}

#[tactic(auto, unfolding(crate::specs::Curve::eased))]
fn quart_in_out(t: f32) -> f32
    ensures { result ≡ eased QuartInOut t }
{
    let u = -2.0 * t + 2.0;
    in_out(t, 8.0 * t * t * t * t, u * u * u * u)
}

#[tactic(auto, unfolding(crate::specs::Curve::eased))]
fn quint_in_out(t: f32) -> f32
    ensures { result ≡ eased QuintInOut t }
{
    let u = -2.0 * t + 2.0;
    in_out(t, 16.0 * t * t * t * t * t, u * u * u * u * u)
}

#[tactic(auto, unfolding(crate::specs::Curve::stepped))]
fn stepped(t: f32) -> f32
    ensures { result ≡ stepped t }
{
    if t < 1.0 { 0.0 } else { 1.0 }
}

// The Bounce curve, of 1.0 - t.
#[tactic(auto, unfolding(crate::specs::Curve::bounced))]
fn bounce(t: f32) -> f32
    ensures { result ≡ bounced t }
{
    if t < 1.0 / 2.75 {
        7.5625 * t * t
    } else if t < 2.0 / 2.75 {
        let u = t - 1.5 / 2.75;
        7.5625 * u * u + 0.75
    } else if t < 2.5 / 2.75 {
        let u = t - 2.25 / 2.75;
        7.5625 * u * u + 0.9375
    } else {
        let u = t - 2.625 / 2.75;
        7.5625 * u * u + 0.984375
    }
}

impl CurveType {
    // The fraction t, eased.
    #[tactic(auto, using(numbers::proofs::StdRoot::std_sqrt), unfolding(crate::specs::Curve::eased))]
    fn ease(self, t: f32) -> f32
        ensures { result ≡ eased self t }
    {
        match self {
            CurveType::Linear => t,
            CurveType::Exponential => t * t,
            CurveType::Logarithmic => t.sqrt(),
            CurveType::SCurve => quad_in_out(t),
            CurveType::Stepped => stepped(t),
            CurveType::Bezier(cp1, cp2) => cubic_bezier(t, cp1, cp2),
            CurveType::Bounce => 1.0 - bounce(1.0 - t),
            CurveType::Back => {
                let s = 1.70158;
                t * t * ((s + 1.0) * t - s)
            }
            CurveType::Circular => 1.0 - (1.0 - t * t).sqrt(),
            CurveType::QuadIn => t * t,
            CurveType::QuadOut => 1.0 - (1.0 - t) * (1.0 - t),
            CurveType::QuadInOut => quad_in_out(t),
            CurveType::CubicIn => t * t * t,
            CurveType::CubicOut => {
                let u = 1.0 - t;
                1.0 - u * u * u
            }
            CurveType::CubicInOut => cubic_in_out(t),
            CurveType::QuartIn => t * t * t * t,
            CurveType::QuartOut => {
                let u = 1.0 - t;
                1.0 - u * u * u * u
            }
            CurveType::QuartInOut => quart_in_out(t),
            CurveType::QuintIn => t * t * t * t * t,
            CurveType::QuintOut => {
                let u = 1.0 - t;
                1.0 - u * u * u * u * u
            }
            CurveType::QuintInOut => quint_in_out(t),
        }
    }

    // The value at the fraction t, which is clamped first, between `start` and `end`.
    #[tactic(auto, unfolding(crate::specs::Curve::interpolated))]
    pub fn interpolate(self, start: f32, end: f32, t: f32) -> f32
        ensures { result ≡ interpolated self start end t }
    {
        let t_eased = self.ease(t.clamp(0.0, 1.0));
        start + (end - start) * t_eased
    }

    // The number of the case on the sheet: 001's order from 0. 6 is Elastic's, which is left out. A match, since a case that carries numbers has no discriminant to cast.
    #[tactic(auto, unfolding(crate::specs::Curve::code))]
    pub fn code(self) -> u32
        ensures { result ≡ code self }
    {
        match self {
            CurveType::Linear => 0,
            CurveType::Exponential => 1,
            CurveType::Logarithmic => 2,
            CurveType::SCurve => 3,
            CurveType::Stepped => 4,
            CurveType::Bezier(_, _) => 5,
            CurveType::Bounce => 7,
            CurveType::Back => 8,
            CurveType::Circular => 9,
            CurveType::QuadIn => 10,
            CurveType::QuadOut => 11,
            CurveType::QuadInOut => 12,
            CurveType::CubicIn => 13,
            CurveType::CubicOut => 14,
            CurveType::CubicInOut => 15,
            CurveType::QuartIn => 16,
            CurveType::QuartOut => 17,
            CurveType::QuartInOut => 18,
            CurveType::QuintIn => 19,
            CurveType::QuintOut => 20,
            CurveType::QuintInOut => 21,
        }
    }

    // The curve of a number, back from `code` and `controls`; Linear where it is no curve's. No TryFrom: a number alone makes no Bezier curve, and this can't fail.
    #[tactic(auto, unfolding(crate::specs::Curve::curve_of))]
    pub fn from_code(code: u32, cp1: f32, cp2: f32) -> CurveType
        ensures { result ≡ curve_of code cp1 cp2 }
    {
        match code {
            1 => CurveType::Exponential,
            2 => CurveType::Logarithmic,
            3 => CurveType::SCurve,
            4 => CurveType::Stepped,
            5 => CurveType::Bezier(cp1, cp2),
            7 => CurveType::Bounce,
            8 => CurveType::Back,
            9 => CurveType::Circular,
            10 => CurveType::QuadIn,
            11 => CurveType::QuadOut,
            12 => CurveType::QuadInOut,
            13 => CurveType::CubicIn,
            14 => CurveType::CubicOut,
            15 => CurveType::CubicInOut,
            16 => CurveType::QuartIn,
            17 => CurveType::QuartOut,
            18 => CurveType::QuartInOut,
            19 => CurveType::QuintIn,
            20 => CurveType::QuintOut,
            21 => CurveType::QuintInOut,
            _ => CurveType::Linear,
        }
    }

    pub fn is_linear(self) -> bool
        ensures { result ≡ is_linear self }
    {
        self.code() == 0
    }

    // The control numbers, 0.0 for each where the curve has none.
    #[tactic(auto, unfolding(crate::specs::Curve::controls))]
    pub fn controls(self) -> Controls
        ensures { result ≡ controls self }
    {
        if let CurveType::Bezier(cp1, cp2) = self {
            Controls { cp1, cp2 }
        } else {
            Controls { cp1: 0.0, cp2: 0.0 }
        }
    }

    // Whether both control numbers are finite.
    #[tactic(auto, unfolding(crate::specs::Curve::finite_controls))]
    pub fn is_finite(self) -> bool
        ensures { result ≡ finite_controls self }
    {
        let c = self.controls();
        c.cp1.is_finite() & c.cp2.is_finite()
    }
}
