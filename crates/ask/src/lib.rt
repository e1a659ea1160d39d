// Merge, asked first: 02's F-3. How many points a merge will give, and a ticket of what was asked.
#![tactic(auto)]

ghost use Rattle.std.specs.Prelude.{◌≡◌};
ghost use Rattle.ask.specs.Ask.{told_ask, ask_of};

use envelope::AutomationEnvelope;
use points::refusal::Refusal;

// What was asked, bit for bit. It is plain data: one that no ask gave is as good.
#[derive(Clone, Copy)]
pub struct Ticket {
    pub first: AutomationEnvelope,
    pub second: AutomationEnvelope,
    pub offset: f64,
}

// How many points the merge will give, or its refusal; the ticket in either case.
#[derive(Clone, Copy)]
pub struct Asked {
    pub answer: Result<usize, Refusal>,
    pub ticket: Ticket,
}

// What `merge` of the second into the first will give.
#[tactic(auto, unfolding(crate::specs::Ask::ask_of))]
pub fn ask_merge(first: &AutomationEnvelope, second: &AutomationEnvelope, offset: f64) -> Asked
    ensures { told_ask result ≡ ask_of first.now second.now offset }
{
    Asked {
        answer: first.merge(second, offset).map(|made| made.points.count),
        ticket: Ticket {
            first: *first,
            second: *second,
            offset,
        },
    }
}
