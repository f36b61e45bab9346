//! The known fields of each message: `specs/Known.antt`.
ghost use Rattle.feed_reading.specs.Known.{trip_known, event_known, properties_known, stop_known, update_known, period_known, selector_known, translation_known, string_known, alert_known, entity_known, header_known, feed_known};

use crate::fault::FeedFault;
use crate::finder::messages::{KnownMessage, each_faults, once_faults, text_faults};
use crate::finder::order::earlier;
use crate::finder::piece::Piece;
use crate::plain::tables::{Header, StopTimeProperties, TranslatedString};
use gw_base::{
    Alert, Entity, Event, Feed, Period, Required, Selector, StopUpdate, Translation,
    TripDescriptor, TripUpdate,
};
use std::alloc::{AllocError, Global};

impl KnownMessage for Event {
    ghost known = { event_known };

    fn faults_inside(
        _alloc: Global,
        _pieces: &[Piece<'_>],
        _end: u64,
    ) -> Result<Option<FeedFault>, AllocError> {
        Ok(None)
    }
}

impl KnownMessage for Period {
    ghost known = { period_known };

    fn faults_inside(
        _alloc: Global,
        _pieces: &[Piece<'_>],
        _end: u64,
    ) -> Result<Option<FeedFault>, AllocError> {
        Ok(None)
    }
}

impl KnownMessage for TripDescriptor {
    ghost known = { trip_known };

    fn faults_inside(
        alloc: Global,
        pieces: &[Piece<'_>],
        end: u64,
    ) -> Result<Option<FeedFault>, AllocError> {
        let trip_id = text_faults(alloc, pieces, 1, None, end)?;
        let start_date = text_faults(alloc, pieces, 3, None, end)?;
        let route_id = text_faults(alloc, pieces, 5, None, end)?;
        Ok(earlier(trip_id, earlier(start_date, route_id)))
    }
}

impl KnownMessage for StopTimeProperties {
    ghost known = { properties_known };

    fn faults_inside(
        alloc: Global,
        pieces: &[Piece<'_>],
        end: u64,
    ) -> Result<Option<FeedFault>, AllocError> {
        let assigned = text_faults(alloc, pieces, 1, None, end)?;
        Ok(assigned)
    }
}

impl KnownMessage for StopUpdate {
    ghost known = { stop_known };

    fn faults_inside(
        alloc: Global,
        pieces: &[Piece<'_>],
        end: u64,
    ) -> Result<Option<FeedFault>, AllocError> {
        let arrival = once_faults::<Event>(alloc, pieces, 2, None, end)?;
        let departure = once_faults::<Event>(alloc, pieces, 3, None, end)?;
        let stop_id = text_faults(alloc, pieces, 4, None, end)?;
        let properties = once_faults::<StopTimeProperties>(alloc, pieces, 6, None, end)?;
        Ok(earlier(arrival, earlier(departure, earlier(stop_id, properties))))
    }
}

impl KnownMessage for TripUpdate {
    ghost known = { update_known };

    fn faults_inside(
        alloc: Global,
        pieces: &[Piece<'_>],
        end: u64,
    ) -> Result<Option<FeedFault>, AllocError> {
        let trip = once_faults::<TripDescriptor>(alloc, pieces, 1, Some(Required::Trip), end)?;
        let updates = each_faults::<StopUpdate>(alloc, pieces, 2, end)?;
        Ok(earlier(trip, updates))
    }
}

impl KnownMessage for Selector {
    ghost known = { selector_known };

    fn faults_inside(
        alloc: Global,
        pieces: &[Piece<'_>],
        end: u64,
    ) -> Result<Option<FeedFault>, AllocError> {
        let agency_id = text_faults(alloc, pieces, 1, None, end)?;
        let route_id = text_faults(alloc, pieces, 2, None, end)?;
        let trip = once_faults::<TripDescriptor>(alloc, pieces, 4, None, end)?;
        let stop_id = text_faults(alloc, pieces, 5, None, end)?;
        Ok(earlier(agency_id, earlier(route_id, earlier(trip, stop_id))))
    }
}

impl KnownMessage for Translation {
    ghost known = { translation_known };

    fn faults_inside(
        alloc: Global,
        pieces: &[Piece<'_>],
        end: u64,
    ) -> Result<Option<FeedFault>, AllocError> {
        let text = text_faults(alloc, pieces, 1, Some(Required::Text), end)?;
        let language = text_faults(alloc, pieces, 2, None, end)?;
        Ok(earlier(text, language))
    }
}

impl KnownMessage for TranslatedString {
    ghost known = { string_known };

    fn faults_inside(
        alloc: Global,
        pieces: &[Piece<'_>],
        end: u64,
    ) -> Result<Option<FeedFault>, AllocError> {
        let translations = each_faults::<Translation>(alloc, pieces, 1, end)?;
        Ok(translations)
    }
}

impl KnownMessage for Alert {
    ghost known = { alert_known };

    fn faults_inside(
        alloc: Global,
        pieces: &[Piece<'_>],
        end: u64,
    ) -> Result<Option<FeedFault>, AllocError> {
        let periods = each_faults::<Period>(alloc, pieces, 1, end)?;
        let selectors = each_faults::<Selector>(alloc, pieces, 5, end)?;
        let header = once_faults::<TranslatedString>(alloc, pieces, 10, None, end)?;
        let description = once_faults::<TranslatedString>(alloc, pieces, 11, None, end)?;
        Ok(earlier(periods, earlier(selectors, earlier(header, description))))
    }
}

impl KnownMessage for Entity {
    ghost known = { entity_known };

    fn faults_inside(
        alloc: Global,
        pieces: &[Piece<'_>],
        end: u64,
    ) -> Result<Option<FeedFault>, AllocError> {
        let id = text_faults(alloc, pieces, 1, Some(Required::Id), end)?;
        let trip_update = once_faults::<TripUpdate>(alloc, pieces, 3, None, end)?;
        let alert = once_faults::<Alert>(alloc, pieces, 5, None, end)?;
        Ok(earlier(id, earlier(trip_update, alert)))
    }
}

impl KnownMessage for Header {
    ghost known = { header_known };

    fn faults_inside(
        alloc: Global,
        pieces: &[Piece<'_>],
        end: u64,
    ) -> Result<Option<FeedFault>, AllocError> {
        let version = text_faults(alloc, pieces, 1, Some(Required::GtfsRealtimeVersion), end)?;
        Ok(version)
    }
}

impl KnownMessage for Feed {
    ghost known = { feed_known };

    fn faults_inside(
        alloc: Global,
        pieces: &[Piece<'_>],
        end: u64,
    ) -> Result<Option<FeedFault>, AllocError> {
        let header = once_faults::<Header>(alloc, pieces, 1, Some(Required::Header), end)?;
        let entities = each_faults::<Entity>(alloc, pieces, 2, end)?;
        Ok(earlier(header, entities))
    }
}
