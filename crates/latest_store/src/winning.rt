//! Which of two records of one journey counts. The definition is that of `specs/Latest.antt`.
ghost use Rattle.std.specs.Prelude.{◌≡◌, not};
ghost use Rattle.latest_store.specs.Latest.{is_later};

use service_day::Instant;

/// Whether a record that arrives later counts in the place of one of the same journey, by the instants of recording
/// (SIRI 2.0, RecordedAtTime): it was recorded no earlier.
pub fn wins(old: &Instant, new: &Instant) -> bool
    ensures { result ≡ not (is_later (old.now.secs, old.now.nanos) (new.now.secs, new.now.nanos)) }
{
    !(new.secs < old.secs || new.secs == old.secs && new.nanos < old.nanos)
}
