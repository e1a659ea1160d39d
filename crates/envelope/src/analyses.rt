// The analyses, and the walk over the samples, by 000's names.
ghost use Rattle.std.specs.Prelude.{◌≡◌};
ghost use Rattle.points.specs.Refusal.{said};
ghost use Rattle.analysis.specs.Analysis.{is_peak, is_valley};
ghost use Rattle.envelope.specs.Calls.{range_between_of, range_samples_of, slope_at_of, find_middles_of, iter_samples_of, next_sample_of};

use crate::AutomationEnvelope;
use points::refusal::Refusal;
use render::SampleIterator;

impl AutomationEnvelope {
    pub fn get_range_samples(
        &self,
        start_sample: u64,
        end_sample: u64,
    ) -> Result<Option<(f32, f32)>, Refusal>
        ensures { said result ≡ range_samples_of self.now start_sample end_sample }
    {
        analysis::get_range_samples(&self.heard(), start_sample, end_sample)
    }

    pub fn get_range(&self, start_time: f64, end_time: f64) -> Result<Option<(f32, f32)>, Refusal>
        ensures { said result ≡ range_between_of self.now start_time end_time }
    {
        analysis::get_range(&self.heard(), start_time, end_time)
    }

    pub fn get_slope_at(&self, time: f64) -> Result<Option<f32>, Refusal>
        ensures { said result ≡ slope_at_of self.now time }
    {
        analysis::get_slope_at(&self.heard(), time)
    }

    // The times and the values of the peaks, from the start of each list.
    pub fn find_peaks(&self, times: &mut [f64], values: &mut [f32]) -> Result<usize, Refusal>
        ensures answer { said result ≡ (find_middles_of is_peak self.now times.old values.old).said }
        ensures times_after { times.new ≡ (find_middles_of is_peak self.now times.old values.old).times }
        ensures values_after { values.new ≡ (find_middles_of is_peak self.now times.old values.old).values }
    {
        analysis::find_peaks(&self.heard(), times, values)
    }

    pub fn find_valleys(&self, times: &mut [f64], values: &mut [f32]) -> Result<usize, Refusal>
        ensures answer { said result ≡ (find_middles_of is_valley self.now times.old values.old).said }
        ensures times_after { times.new ≡ (find_middles_of is_valley self.now times.old values.old).times }
        ensures values_after { values.new ≡ (find_middles_of is_valley self.now times.old values.old).values }
    {
        analysis::find_valleys(&self.heard(), times, values)
    }

    // Opens a walk over the samples.
    pub fn iter_samples(&self, rate: f64, duration: f64) -> Result<SampleIterator, Refusal>
        ensures { said result ≡ iter_samples_of self.now rate duration }
    {
        render::iter_samples(&self.heard(), rate, duration)
    }

    // The walk's next sample.
    pub fn next(&self, walk: &mut SampleIterator) -> Result<Option<f32>, Refusal>
        ensures answer { said result ≡ (next_sample_of self.now walk.old).said }
        ensures walk_after { walk.new ≡ (next_sample_of self.now walk.old).walk }
    {
        walk.next(&self.heard())
    }
}
