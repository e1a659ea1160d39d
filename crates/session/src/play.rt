// Lookups and rendering on the session's envelope, by the envelope's names and with its arguments. The envelope's own test gives the 1 for it.
ghost use Rattle.std.specs.Prelude.{◌≡◌};
ghost use Rattle.points.specs.Refusal.{said};
ghost use Rattle.session.specs.Play.{session_value_at, session_value_at_sample, session_render, session_to_buffer};

use crate::Session;
use points::refusal::Refusal;

impl Session {
    #[tactic(auto, using(crate::proofs::PlayLaws::value_own), unfolding(crate::specs::Play::session_value_at))]
    pub fn get_value_at(&self, time: f64) -> Result<Option<f32>, Refusal>
        ensures { said result ≡ session_value_at self.now time }
    {
        self.check_order()?;
        self.envelope.get_value_at(time)
    }

    #[tactic(auto, using(crate::proofs::PlayLaws::sample_own), unfolding(crate::specs::Play::session_value_at_sample))]
    pub fn get_value_at_sample(&self, sample: u64) -> Result<Option<f32>, Refusal>
        ensures { said result ≡ session_value_at_sample self.now sample }
    {
        self.check_order()?;
        self.envelope.get_value_at_sample(sample)
    }

    // `count` samples from `first` on, written into `out` from `place` on.
    #[tactic(auto, using(crate::proofs::PlayLaws::render_own), unfolding(crate::specs::Play::session_render))]
    pub fn render(
        &self,
        rate: f64,
        first: u64,
        count: u64,
        out: &mut [f32],
        place: usize,
    ) -> Result<(), Refusal>
        ensures answer { said result ≡ (session_render self.now rate first count place out.old).said }
        ensures out_after { out.new ≡ (session_render self.now rate first count place out.old).buffer }
    {
        self.check_order()?;
        self.envelope.render(rate, first, count, out, place)
    }

    // The samples from 0 on, as many as the duration times the rate.
    #[tactic(auto, using(crate::proofs::PlayLaws::buffer_own), unfolding(crate::specs::Play::session_to_buffer))]
    pub fn to_buffer(
        &self,
        rate: f64,
        duration: f64,
        out: &mut [f32],
        place: usize,
    ) -> Result<(), Refusal>
        ensures answer { said result ≡ (session_to_buffer self.now rate duration place out.old).said }
        ensures out_after { out.new ≡ (session_to_buffer self.now rate duration place out.old).buffer }
    {
        self.check_order()?;
        self.envelope.to_buffer(rate, duration, out, place)
    }
}
