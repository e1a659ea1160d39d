// The Player: lookup by time and by sample, and rendering into a lent buffer, by 01's names and with its arguments; a buffer comes whole and with a place, since 8 is asked of both.
ghost use Rattle.std.specs.Prelude.{◌≡◌};
ghost use Rattle.points.specs.Refusal.{said};
ghost use Rattle.envelope.specs.Calls.{value_at_of, value_at_sample_of, render_of, to_buffer_of};

use crate::AutomationEnvelope;
use points::refusal::Refusal;

impl AutomationEnvelope {
    pub fn get_value_at(&self, time: f64) -> Result<Option<f32>, Refusal>
        ensures { said result ≡ value_at_of self.now time }
    {
        self.heard().get_value_at(time)
    }

    pub fn get_value_at_sample(&self, sample: u64) -> Result<Option<f32>, Refusal>
        ensures { said result ≡ value_at_sample_of self.now sample }
    {
        self.heard().get_value_at_sample(sample)
    }

    // `count` samples from `first` on, written into `out` from `place` on.
    pub fn render(
        &self,
        rate: f64,
        first: u64,
        count: u64,
        out: &mut [f32],
        place: usize,
    ) -> Result<(), Refusal>
        ensures answer { said result ≡ (render_of self.now rate first count place out.old).said }
        ensures out_after { out.new ≡ (render_of self.now rate first count place out.old).buffer }
    {
        render::render(&self.heard(), rate, first, count, out, place)
    }

    // The samples from 0 on, as many as the duration times the rate.
    pub fn to_buffer(
        &self,
        rate: f64,
        duration: f64,
        out: &mut [f32],
        place: usize,
    ) -> Result<(), Refusal>
        ensures answer { said result ≡ (to_buffer_of self.now rate duration place out.old).said }
        ensures out_after { out.new ≡ (to_buffer_of self.now rate duration place out.old).buffer }
    {
        render::to_buffer(&self.heard(), rate, duration, out, place)
    }
}
