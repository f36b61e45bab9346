//! How many stops read in which way. The definitions are those of `specs/Counts.antt`.
ghost use Rattle.std.specs.Prelude.{◌≡◌, ◌+◌, ◌<◌, ◌^◌, count_by};
ghost use Rattle.journey_model.specs.Readings.{is_absent, is_skipped};
ghost use Rattle.sample_counts.specs.Counts as spec;
ghost use Rattle.sample_counts.specs.Steps.{plus, tally};

use journey_model::StopReading;

/// How many stops are skipped, absent and timed.
#[derive(Clone, Copy, Debug)]
pub(crate) struct Tally {
    pub(crate) skipped: u64,
    pub(crate) absent: u64,
    pub(crate) timed: u64,
}

// Whether a stop has times.
fn is_timed(reading: &StopReading) -> bool
    ensures { result ≡ spec.is_timed reading.now }
{
    matches!(reading, StopReading::Timed { .. })
}

// How many of these stops are skipped, are absent, and have times.
fn skipped_in(readings: &[StopReading]) -> u64
    ensures { result ≡ count_by is_skipped readings.now }
{
    readings.iter().filter(|one| one.is_skipped()).count() as u64
}

fn absent_in(readings: &[StopReading]) -> u64
    ensures { result ≡ count_by is_absent readings.now }
{
    readings.iter().filter(|one| one.is_absent()).count() as u64
}

fn timed_in(readings: &[StopReading]) -> u64
    ensures { result ≡ count_by spec.is_timed readings.now }
{
    readings.iter().filter(|one| is_timed(*one)).count() as u64
}

/// How many of these stops read in which way.
pub(crate) fn tally_of(readings: &[StopReading]) -> Tally
    ensures { result ≡ tally readings.now }
{
    Tally {
        skipped: skipped_in(readings),
        absent: absent_in(readings),
        timed: timed_in(readings),
    }
}

impl Tally {
    /// Adds further stops.
    pub(crate) fn add(&mut self, more: &Tally)
        requires skipped { self.old.skipped + more.now.skipped < 2 ^ 64 }
        requires absent { self.old.absent + more.now.absent < 2 ^ 64 }
        requires timed { self.old.timed + more.now.timed < 2 ^ 64 }
        ensures { self.new ≡ plus self.old more.now }
    {
        self.skipped += more.skipped;
        self.absent += more.absent;
        self.timed += more.timed;
    }
}
