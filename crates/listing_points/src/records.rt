// Points and settings in a line. A point is `TIME POSITION VALUE CODE CP1 CP2`; `-` is none.
use limits::Limits;
use listing::text::{Field, Line, Said};
use listing_numbers::curves::Curve;
use points::point::unused;
use points::{AutomationPoint, Points};

#[derive(Clone, Copy)]
pub struct Point(pub AutomationPoint);

impl Field for Point {
    fn read(line: &mut Line<'_>) -> Option<Point> {
        let (time, sample_position, value) = line.field()?;
        let Curve(curve) = line.field()?;
        Some(Point(AutomationPoint {
            time,
            sample_position,
            value,
            curve,
        }))
    }
}

impl Said for Point {
    fn is_said(&self, line: &mut Line<'_>) -> Option<()> {
        let Point(p) = *self;
        p.time.is_said(line)?;
        p.sample_position.is_said(line)?;
        p.value.is_said(line)?;
        Curve(p.curve).is_said(line)
    }
}

// The number of points, and the points. Where there are more than the places hold, the first ones are in them.
#[derive(Clone, Copy)]
pub struct List(pub Points);

impl Field for List {
    fn read(line: &mut Line<'_>) -> Option<List> {
        let ListPart { points, is_whole } = line.field()?;
        is_whole.then_some(List(points))
    }
}

// As much of a list as a line has: the number, and the points before the first that can't be read.
#[derive(Clone, Copy)]
pub struct ListPart {
    pub points: Points,
    pub is_whole: bool,
}

impl Field for ListPart {
    fn read(line: &mut Line<'_>) -> Option<ListPart> {
        let count: usize = line.field()?;
        let mut places = [unused(); 256];
        let is_whole = read_points(line, count, &mut places).is_some();
        Some(ListPart {
            points: Points { count, places },
            is_whole,
        })
    }
}

// Reads so many points, the first ones into the places.
fn read_points(
    line: &mut Line<'_>,
    count: usize,
    places: &mut [AutomationPoint; 256],
) -> Option<()> {
    for place in places.iter_mut().take(count) {
        let Point(p) = line.field()?;
        *place = p;
    }
    for _ in 256..count {
        line.field::<Point>()?;
    }
    Some(())
}

impl Said for List {
    fn is_said(&self, line: &mut Line<'_>) -> Option<()> {
        let List(points) = self;
        points.count.is_said(line)?;
        for p in points.as_slice() {
            Point(*p).is_said(line)?;
        }
        for _ in 256..points.count {
            line.field::<Point>()?;
        }
        Some(())
    }
}

// The minimum, the maximum, the step, and hard.
#[derive(Clone, Copy)]
pub struct Bounds(pub Limits);

impl Field for Bounds {
    fn read(line: &mut Line<'_>) -> Option<Bounds> {
        let (min_value, max_value, step_size) = line.field()?;
        let hard = line.field()?;
        Some(Bounds(Limits {
            min_value,
            max_value,
            step_size,
            hard,
        }))
    }
}

impl Said for Bounds {
    fn is_said(&self, line: &mut Line<'_>) -> Option<()> {
        let Bounds(limits) = self;
        limits.min_value.is_said(line)?;
        limits.max_value.is_said(line)?;
        limits.step_size.is_said(line)?;
        limits.hard.is_said(line)
    }
}
