//! Service days and moments: dates in the two spellings of GTFS and SIRI, UTC moments, and zones. Days are numbers of
//! days since 1970-01-01, moments seconds since 1970-01-01T00:00:00Z. It stands on `gw_base`, and on `jiff` for what a
//! zone's rule or file means. Its point is `day_start`: a service day begins at local noon less 12 hours; and
//! `read_moment`, which accepts exactly the forms of SIRI's moments.
#![tactic(auto)]

mod day_texts;
mod days;
mod digits;
mod moments;
mod starts;
mod utc;
mod windows;
mod zones;

pub use day_texts::{day_compact, day_text, read_day};
pub use days::{Day, DayForm};
pub use moments::{Instant, MomentFault, read_moment};
pub use starts::{day_start, local_day};
pub use utc::{read_utc, write_moment};
pub use windows::Window;
pub use zones::{Zone, ZoneFault};
