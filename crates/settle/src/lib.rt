// The end of every edit of the points: the refusals in 01's order as far as the points decide them, or the new points.
#![tactic(auto)]

ghost use Rattle.std.specs.Prelude.{◌≡◌, List};
ghost use Rattle.points.specs.Points.{list_of};
ghost use Rattle.points.specs.declared.AutomationPoint.{AutomationPoint};
ghost use Rattle.settle.specs.Settle.{edit_points};
ghost use Rattle.settle.specs.Finish.{finished, Makes};

use points::Points;
use points::refusal::Refusal;

// `ok` says that the edit's arguments are finite, and `new` is what it makes of the points. A flag and no test before this one, since 1 stands before 3.
#[tactic(auto, unfolding(crate::specs::Finish::finished, crate::specs::Settle::edit_points, crate::specs::Settle::judged, points::specs::Checks::first_failing))]
pub fn finish(points: &Points, ok: bool, new: Points) -> Result<Points, Refusal>
    ensures finished { result ≡ finished points.now ok new }
    ensures edit { (l : List AutomationPoint) → Makes points.now ok new l → result ≡ edit_points points.now ok l }
{
    points.check()?;
    // 3 stands in two places of 01's order: for the arguments, and for the result
    if !ok {
        return Err(Refusal::NotFinite);
    }
    if !new.all_finite() {
        return Err(Refusal::NotFinite);
    }
    if !new.times_rise() {
        return Err(Refusal::TimesDontRise);
    }
    Ok(new)
}

// An edit that leaves the points as they are; it has the refusals of every edit.
pub fn keep(points: &Points, ok: bool) -> Result<Points, Refusal>
    ensures { result ≡ edit_points points.now ok (list_of points.now) }
{
    finish(points, ok, *points)
}
