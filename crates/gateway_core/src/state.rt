//! What of a gateway changes, and how: all memory for a change is taken first, and the change is then made in steps
//! that can't fail. The definitions are those of `specs/Changes.antt`.
ghost use Rattle.std.specs.Prelude.{◌≡◌, ◌≤◌, length, OnOk};
ghost use Rattle.gateway_core.specs.Changes as spec;

use crate::accepted::Accepted;
use crate::keys::{Edition, JourneyKey};
use feed_index::{Batch, FeedIndex};
use gw_base::{Bytes, Text};
use service_day::{Instant, Window};
use std::alloc::AllocError;

/// What changes with the bodies that are taken: the window, the entities of journeys, the alerts of situations, and the
/// SIRI text of the last feed.
#[derive(Drop)]
pub(crate) struct State {
    /// The window of service days.
    pub window: Window,
    /// Of each journey the entity of its latest record.
    pub journeys: FeedIndex<JourneyKey, Instant>,
    /// Of each situation number the alert of its newest version.
    pub situations: FeedIndex<Text, Edition>,
    /// The SIRI text of the last feed.
    pub text: Bytes,
}

/// What a body brings.
#[derive(Drop)]
pub(crate) enum News {
    /// The entries of journeys that are to be put.
    Journeys(Batch<JourneyKey, Instant>),
    /// The entries of situations that are to be put.
    Situations(Batch<Text, Edition>),
    /// The SIRI text that takes the place of the one before.
    Text(Bytes),
}

/// A change that a body makes.
#[derive(Drop)]
pub(crate) struct Change {
    /// The window of the body's moment.
    pub window: Window,
    /// How many of the first entries of journeys are of days before it.
    pub expired: u64,
    /// What is put, once these are gone.
    pub news: News,
}

/// A body that was read and judged, for whose change all memory is taken: what is answered to it, and the change.
#[derive(Drop)]
pub(crate) struct Prepared {
    /// The answer.
    pub accepted: Accepted,
    /// The change.
    pub change: Change,
}

impl State {
    // Takes all memory that news need, and leaves all that is kept alone.
    fn make_room(&mut self, news: &News) -> Result<(), AllocError>
        ensures same { spec.IsSame self.old self.new }
        ensures room { OnOk result (spec.HasRoom self.new news.now) }
    {
        match news {
            News::Journeys(batch) => self.journeys.prepare_for(batch),
            News::Situations(batch) => self.situations.prepare_for(batch),
            News::Text(_) => Ok(()),
        }
    }

    // Puts news for which there is room. Takes no memory.
    fn put(&mut self, news: News)
        requires room { spec.HasRoom self.old news }
        ensures window { self.new.window ≡ self.old.window }
        ensures journeys { self.new.journeys.entries
            ≡ spec.journeys_after news self.old.journeys.entries }
        ensures situations { self.new.situations.entries
            ≡ spec.situations_after news self.old.situations.entries }
        ensures text { self.new.text ≡ spec.text_after news self.old.text }
    {
        match news {
            News::Journeys(batch) => self.journeys.merge(batch),
            News::Situations(batch) => self.situations.merge(batch),
            News::Text(text) => self.text = text,
        }
    }

    /// Takes all memory that a change needs, and leaves all that is kept alone. Err for want of memory.
    pub fn prepare(&mut self, change: &Change) -> Result<(), AllocError>
        requires within { change.now.expired ≤ length self.old.journeys.entries }
        ensures same { spec.IsSame self.old self.new }
        ensures fits { OnOk result (spec.CanBeMade self.new change.now) }
    {
        self.make_room(&change.news)
    }

    /// Makes a change for which all memory is taken: no step of it can fail.
    pub fn commit(&mut self, change: Change)
        requires fits { spec.CanBeMade self.old change }
        ensures changed { spec.IsChanged self.old change self.new }
    {
        let Change {
            window,
            expired,
            news,
        } = change;
        self.window = window;
        self.journeys.cut_front(expired);
        self.put(news);
    }
}
