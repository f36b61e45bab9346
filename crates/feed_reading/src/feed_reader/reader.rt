//! The reader: one step of the top level after the other, and what each body means. It meets `StandsFor` of
//! `specs/FeedPieces.antt`.
ghost use Rattle.std.specs.Prelude.{◌≡◌, ◌≢◌, [], ◌++◌, ◌+◌, ◌-◌, ◌<◌, ◌≤◌, ℕ, List as Values, length, take, Some, None, IfOk, IfErr};
ghost use Rattle.gw_base.specs.declared.messages.Entity as entities;
ghost use Rattle.gw_base.specs.Limits.{body_limit};
ghost use Rattle.wire_fields.specs.TopReading as tops;
ghost use Rattle.feed_reading.specs.declared.fault.FeedFault as faults;
ghost use Rattle.feed_reading.specs.Faults.{HasFault, IsFeedFault};
ghost use Rattle.feed_reading.specs.FeedPieces.{StandsFor, GoesOn, MayHold, feed_of};
ghost use Rattle.feed_reading.specs.FeedSteps.{IsReadOf, EndsHeader, EndsEntity, Proceeds, Begins, Ends, body_piece, with_held, between, whole_head};
ghost use Rattle.feed_reading.specs.Pieces.{piece_of};
ghost use Rattle.feed_reading.specs.Tables.{MeansFeed};

use crate::fault::FeedFault;
use crate::feed_reader::entity_body::read_entity;
use crate::feed_reader::header_body::{read_header, said_after};
use crate::feed_reader::state::{Body, HeadSoFar};
use crate::finder::lengths::LIMIT;
use crate::finder::piece::Piece;
use crate::quick::fields::as_enum;
use gw_base::{Bytes, Entity, FeedHead, List, Required};
use std::alloc::{AllocError, Global};
use std::marker::Model;
use wire_fields::{Step, TopEvent, TopReader};

/// A feed that is read piece by piece (GTFS Realtime, FeedMessage). Beside the header's fields it holds at most the
/// bytes of one body. A contract sees what it keeps, and by `StandsFor` which bytes it stands for.
#[derive(Drop)]
pub struct FeedReader {
    alloc: Global,
    taken: u64,
    given: u64,
    top: TopReader,
    body: Body,
    held: Bytes,
    head: Option<HeadSoFar>,
    fault: Option<FeedFault>,
}

impl Model for FeedReader {
    ghost use Rattle.std.specs.Prelude.{length};
    ghost use Rattle.feed_reading.specs.FeedPieces.{Seen};
    ghost use Rattle.feed_reading.specs.FeedSteps.{IsCounted};

    ghost Value = { Seen };

    ghost view = { λ r. record {
      taken = r.taken;
      given = r.given;
      top = r.top;
      body = r.body;
      held = r.held;
      head = r.head;
      fault = r.fault;
    } };

    ghost invariant = { λ r. IsCounted r.taken r.given (length r.held) r.top };
}

impl FeedReader {
    /// A reader to which nothing came yet. Takes no memory.
    pub fn make(alloc: Global) -> FeedReader
        ensures nothing { result.taken ≡ 0 }
        ensures stands { StandsFor result [] [] }
    {
        FeedReader {
            alloc,
            taken: 0,
            given: 0,
            top: TopReader::make(),
            body: Body::Other,
            held: List::new(alloc),
            head: None,
            fault: None,
        }
    }

    /// Takes bytes from the front of a piece up to the next end of an entity, which it gives with its index, and
    /// answers how many; where none ends in the piece, it takes all. From the first fault on it gives none. After an
    /// error the reader may only be dropped.
    pub fn feed(&mut self, piece: &[u8]) -> Result<(usize, Option<(u64, Entity)>), AllocError>
        requires some { 0 < length piece.now }
        requires few { self.old.taken + length piece.now ≤ body_limit }
        ensures used { IfOk result (λ x. (1 ≤ x.0) × (x.0 ≤ length piece.now)) }
        ensures all { IfOk result (λ x. x.1 ≡ None → x.0 ≡ length piece.now) }
        ensures at_fault { self.old.fault ≢ None → IfOk result (λ x. x.1 ≡ None) }
        ensures taken { IfOk result (λ x. self.new.taken ≡ self.old.taken + x.0) }
        ensures gives { (bytes : Values ℕ) (given : Values entities.Entity) → StandsFor self.old bytes given
            → IfOk result (λ x. GoesOn self.new bytes piece.now given x) }
    {
        let mut used = 0;
        while used < piece.len() {
            let (_, rest) = piece.split_at(used);
            let (more, ended) = self.step(rest)?;
            used += more;
            if let Some(entity) = ended {
                let index = self.given;
                self.given += 1;
                return Ok((used, Some((index, entity))));
            }
        }
        Ok((used, None))
    }

    /// The header of the feed that came, or exactly the fault that its bytes have, which is never want of memory. Takes
    /// no memory.
    pub fn finish(self) -> Result<FeedHead, FeedFault>
        ensures head { (bytes : Values ℕ) (given : Values entities.Entity) → StandsFor self bytes given
            → IfOk result (λ head. MeansFeed bytes (feed_of head given)) }
        ensures no_fault { (bytes : Values ℕ) (given : Values entities.Entity) → StandsFor self bytes given
            → IfOk result (λ _. (fault : faults.FeedFault) → ¬ HasFault bytes fault) }
        ensures fault { (bytes : Values ℕ) (given : Values entities.Entity) → StandsFor self bytes given
            → IfErr result (λ fault. IsFeedFault bytes fault) }
    {
        if let Some(fault) = self.fault {
            return Err(fault);
        }
        if let Some(fault) = self.top.end() {
            return Err(FeedFault::Wire(fault));
        }
        whole_head(self.head, self.taken)
    }

    /// How many bytes are held of the body that is being read. Takes no memory.
    pub fn held(&self) -> u64
        ensures value { result ≡ length self.now.held }
        ensures few { (bytes : Values ℕ) (given : Values entities.Entity) → StandsFor self.now bytes given
            → MayHold (tops.place_of self.now.top) result }
    {
        self.held.len() as u64
    }

    // Goes on to the next end of a field, of a length or of the piece, and gives the entity that ends there.
    fn step(&mut self, piece: &[u8]) -> Result<(usize, Option<Entity>), AllocError>
        requires some { 0 < length piece.now }
        requires few { self.old.taken + length piece.now ≤ body_limit }
        ensures used { IfOk result (λ x. (1 ≤ x.0) × (x.0 ≤ length piece.now)) }
        ensures taken { IfOk result (λ x. self.new.taken ≡ self.old.taken + x.0) }
        ensures fewer { IfOk result (λ _. self.new.given + 1 ≤ self.new.taken) }
        ensures at_fault { self.old.fault ≢ None
            → IfOk result (λ x. (self.new.fault ≢ None) × (x.1 ≡ None)) }
        ensures steps { (bytes : Values ℕ) (given : Values entities.Entity) → StandsFor self.old bytes given
            → IfOk result (λ x. Ends self.new (bytes ++ take x.0 piece.now) given x.1) }
    {
        if self.fault.is_some() {
            self.taken += piece.len() as u64;
            return Ok((piece.len(), None));
        }
        let Step { used, event } = self.top.step(piece);
        self.taken += used as u64;
        let (front, _) = piece.split_at(used);
        let ended = match event {
            TopEvent::Begin { number, at, len } => self.begin(number, at, len)?,
            TopEvent::Part => self.go_on(front)?,
            TopEvent::Broken(fault) => {
                self.stop(FeedFault::Wire(fault));
                None
            }
            TopEvent::More => None,
            TopEvent::Other => None,
        };
        Ok((used, ended))
    }

    // A fault was found.
    fn stop(&mut self, fault: FeedFault)
        ensures { self.new ≡ between self.old self.old.head (Some fault) }
    {
        self.fault = Some(fault);
        self.body = Body::Other;
        self.held.clear();
    }

    // A field with bytes begins.
    fn begin(&mut self, number: u32, at: u64, len: u64) -> Result<Option<Entity>, AllocError>
        requires few { self.old.taken ≤ body_limit }
        ensures { IfOk result (λ ended. Begins self.old number at len ended self.new) }
    {
        if number == 2 && len > LIMIT {
            self.stop(FeedFault::EntityTooLong(at));
            return Ok(None);
        }
        self.body = match number {
            1 => Body::Header { at, len },
            2 => Body::Entity { at, len },
            _ => Body::Other,
        };
        self.go_on(&[])
    }

    // More bytes of a field come.
    fn go_on(&mut self, bytes: &[u8]) -> Result<Option<Entity>, AllocError>
        requires room { length self.old.held + length bytes.now ≤ self.old.taken }
        requires few { self.old.taken ≤ body_limit }
        ensures { IfOk result (λ ended. Proceeds self.old bytes.now ended self.new) }
    {
        let came = self.held.len() as u64 + bytes.len() as u64;
        match self.body {
            Body::Other => Ok(None),
            Body::Header { at, len } => {
                if came < len {
                    self.held.extend(bytes)?;
                    return Ok(None);
                }
                self.end_header(at, bytes)?;
                Ok(None)
            }
            Body::Entity { at, len } => {
                if came < len {
                    self.held.extend(bytes)?;
                    return Ok(None);
                }
                self.end_entity(at, bytes)
            }
        }
    }

    // The body of a header ends with these bytes.
    fn end_header(&mut self, at: u64, bytes: &[u8]) -> Result<(), AllocError>
        requires room { length self.old.held + length bytes.now ≤ self.old.taken }
        requires few { self.old.taken ≤ body_limit }
        ensures { IfOk result (λ _. EndsHeader self.old at (self.old.held ++ bytes.now) self.new) }
    {
        self.held.extend(bytes)?;
        let piece = ending_at(self.taken, at, self.held.as_slice());
        let read = read_header(self.alloc, &piece)?;
        self.held.clear();
        self.body = Body::Other;
        match read {
            Ok(said) => {
                let before = std::mem::replace(&mut self.head, None);
                self.head = Some(said_after(before, said));
                Ok(())
            }
            Err(fault) => {
                self.fault = Some(fault);
                Ok(())
            }
        }
    }

    // The body of an entity ends with these bytes.
    fn end_entity(&mut self, at: u64, bytes: &[u8]) -> Result<Option<Entity>, AllocError>
        requires room { length self.old.held + length bytes.now ≤ self.old.taken }
        requires few { self.old.taken ≤ body_limit }
        ensures { IfOk result (λ ended. EndsEntity self.old at (self.old.held ++ bytes.now) ended self.new) }
    {
        let read = self.read_ended(at, bytes)?;
        self.held.clear();
        self.body = Body::Other;
        match read {
            Ok(entity) => Ok(Some(entity)),
            Err(fault) => {
                self.fault = Some(fault);
                Ok(None)
            }
        }
    }

    // The entity of the body that ends with these bytes, or its first fault. Where they are the whole body, they are
    // read where they stand.
    fn read_ended(&mut self, at: u64, bytes: &[u8]) -> Result<Result<Entity, FeedFault>, AllocError>
        requires room { length self.old.held + length bytes.now ≤ self.old.taken }
        requires few { self.old.taken ≤ body_limit }
        ensures read { IfOk result (IsReadOf (body_piece self.old at (self.old.held ++ bytes.now))) }
        ensures kept { IfOk result (λ _. self.new ≡ with_held self.old self.new.held) }
    {
        if self.held.is_empty() {
            return read_entity(self.alloc, &ending_at(self.taken, at, bytes));
        }
        self.held.extend(bytes)?;
        let piece = ending_at(self.taken, at, self.held.as_slice());
        read_entity(self.alloc, &piece)
    }
}

// The piece of a body that ends after so many bytes of the feed.
fn ending_at(taken: u64, at: u64, body: &[u8]) -> Piece<'_>
    requires room { length body.now ≤ taken }
    requires few { taken ≤ body_limit }
    ensures { piece_of result ≡ record { tag = at; start = taken - length body.now; bytes = body.now } }
{
    Piece {
        tag: at,
        start: taken - body.len() as u64,
        bytes: body,
    }
}

// The header of a feed of so many bytes whose fields have no fault, or what is missing of it.
fn whole_head(head: Option<HeadSoFar>, taken: u64) -> Result<FeedHead, FeedFault>
    ensures { result ≡ whole_head head taken }
{
    match head {
        None => Err(FeedFault::MissingField(taken, Required::Header)),
        Some(
            HeadSoFar {
                version,
                incrementality,
                timestamp,
            },
        ) => match version {
            None => Err(FeedFault::MissingField(taken, Required::GtfsRealtimeVersion)),
            Some(version) => Ok(FeedHead {
                version,
                incrementality: as_enum(incrementality, 0),
                timestamp,
            }),
        },
    }
}
