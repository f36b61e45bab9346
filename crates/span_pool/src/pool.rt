//! The region, with its spans by slot.
ghost use Rattle.std.specs.Prelude.{◌≡◌, ◌+◌, ◌-◌, ◌^◌, ◌∷◌, [], ◌++◌, ◌<◌, ◌≤◌, length, None, Some, IsSome, IsOk, OnOk, OnErr, unwrap_or};
ghost use Rattle.span_pool.specs.Spans.{live_bytes, bytes_of, without, AreApart};

use crate::order::{make_rows, sweep, take_slot};
use crate::packing::pack;
use crate::place::{NOBODYS, Place};
use crate::slot::Slot;
use std::alloc::{AllocError, Global};
use std::marker::Model;

/// A region of bytes that holds many spans in one block of memory, each under a slot of its own. A span keeps its bytes
/// until it is given back; what is given back is dead until `compact` moves the live spans together. Only
/// `reserve` takes memory. A contract sees the live spans with their slots, in the order in which they
/// stand, the dead bytes, and how many more bytes and spans it takes.
#[derive(Debug, Drop)]
pub struct SpanPool {
    // the region
    bytes: Vec<u8>,
    // where the span of each slot stands
    places: Vec<Place>,
    // each slot once: first those in use in the order in which their spans stand, those given back among them, then
    // those that no span has
    order: Vec<usize>,
    // how many of the order are in use
    used: usize,
    // the bytes of the live spans
    live: usize,
    // how many more bytes and spans are promised to be taken without memory
    spare_bytes: usize,
    spare_spans: usize,
}

impl Model for SpanPool {
    ghost use Rattle.std.specs.Prelude.{◌+◌, ◌-◌, ◌≤◌, take, length, vec_len, vec_capacity};
    ghost use Rattle.span_pool.specs.Spans.{Spans};

    ghost Value = { Spans };

    ghost use Rattle.span_pool.specs.Places.{IsOrder, IsRegion, standing, cut};

    ghost view = { λ p. record {
      spans = cut p.bytes.items (standing p.places.items (take p.used p.order.items));
      dead = length p.bytes.items - p.live;
      spare_bytes = p.spare_bytes;
      spare_spans = p.spare_spans;
    } };

    ghost invariant = { λ p. IsOrder (length p.places.items) p.order.items p.used
        × IsRegion p.bytes.items (standing p.places.items (take p.used p.order.items)) p.live
        × (vec_len p.bytes + p.spare_bytes ≤ vec_capacity p.bytes)
        × (p.used + p.spare_spans ≤ vec_capacity p.places)
        × (p.used + p.spare_spans ≤ vec_capacity p.order) };
}

impl SpanPool {
    /// An empty pool, which takes no memory.
    pub fn make(alloc: Global) -> SpanPool
        ensures empty { result ≡ record { spans = []; dead = 0; spare_bytes = 0; spare_spans = 0 } }
    {
        SpanPool {
            bytes: Vec::new(alloc),
            places: Vec::new(alloc),
            order: Vec::new(alloc),
            used: 0,
            live: 0,
            spare_bytes: 0,
            spare_spans: 0,
        }
    }

    /// Makes room for that many more bytes and spans, and takes memory only where there is less room. For want of
    /// memory all is as it was.
    pub fn reserve(&mut self, bytes: u64, spans: u64) -> Result<(), AllocError>
        ensures spans { self.new.spans ≡ self.old.spans }
        ensures dead { self.new.dead ≡ self.old.dead }
        ensures bytes_room { OnOk result (bytes ≤ self.new.spare_bytes) }
        ensures spans_room { OnOk result (spans ≤ self.new.spare_spans) }
        ensures no_less_bytes { self.old.spare_bytes ≤ self.new.spare_bytes }
        ensures no_less_spans { self.old.spare_spans ≤ self.new.spare_spans }
        ensures kept { OnErr result (self.new ≡ self.old) }
        ensures suffices { bytes ≤ self.old.spare_bytes → spans ≤ self.old.spare_spans → IsOk result }
    {
        if bytes <= self.spare_bytes as u64 && spans <= self.spare_spans as u64 {
            return Ok(());
        }
        self.bytes.reserve(bytes as usize)?;
        if spans > self.spare_spans as u64 {
            self.used = sweep(&self.places, &mut self.order, self.used);
            self.spare_spans = make_rows(
                &mut self.places,
                &mut self.order,
                self.used,
                spans as usize,
            )?;
        }
        self.spare_bytes = self.bytes.capacity() - self.bytes.len();
        Ok(())
    }

    /// Holds these bytes as a span of its own, under a slot that no other live span has.
    pub fn put(&mut self, bytes: &[u8]) -> Slot
        requires bytes_room { length bytes.now ≤ self.old.spare_bytes }
        requires spans_room { 0 < self.old.spare_spans }
        ensures apart { bytes_of self.old.spans result ≡ None }
        ensures added { self.new.spans ≡ self.old.spans ++ (result, bytes.now) ∷ [] }
        ensures held { bytes_of self.new.spans result ≡ Some bytes.now }
        ensures dead { self.new.dead ≡ self.old.dead }
        ensures spare_bytes { self.new.spare_bytes ≡ self.old.spare_bytes - length bytes.now }
        ensures spare_spans { self.new.spare_spans ≡ self.old.spare_spans - 1 }
        ensures live { live_bytes self.new.spans ≡ live_bytes self.old.spans + length bytes.now }
    {
        let start = self.bytes.len();
        self.bytes.extend_from_slice(bytes).unwrap();
        let place = Place {
            start,
            end: self.bytes.len(),
        };
        let number = take_slot(&mut self.places, &mut self.order, self.used, place);
        self.used += 1;
        self.live += bytes.len();
        self.spare_bytes -= bytes.len();
        self.spare_spans -= 1;
        Slot { number }
    }

    /// The bytes of a slot's span.
    pub fn span(&self, slot: &Slot) -> &[u8]
        requires held { IsSome (bytes_of self.now.spans slot.now) }
        ensures bytes { bytes_of self.now.spans slot.now ≡ Some result.now }
    {
        let place = &self.places[slot.number];
        &self.bytes[place.start..place.end]
    }

    /// Gives a slot's span back. Its bytes are dead from then on.
    pub fn give_back(&mut self, slot: Slot)
        requires held { IsSome (bytes_of self.old.spans slot) }
        ensures spans { self.new.spans ≡ without self.old.spans slot }
        ensures dead { self.new.dead
            ≡ self.old.dead + length (unwrap_or (bytes_of self.old.spans slot) []) }
        ensures live { live_bytes self.old.spans
            ≡ live_bytes self.new.spans + length (unwrap_or (bytes_of self.old.spans slot) []) }
        ensures no_less_bytes { self.old.spare_bytes ≤ self.new.spare_bytes }
        ensures no_less_spans { self.old.spare_spans ≤ self.new.spare_spans }
    {
        let place = self.places[slot.number];
        self.live -= place.end - place.start;
        self.places[slot.number] = NOBODYS;
    }

    /// Moves the live spans together, so that no byte is dead.
    pub fn compact(&mut self)
        ensures spans { self.new.spans ≡ self.old.spans }
        ensures dead { self.new.dead ≡ 0 }
        ensures no_less_bytes { self.old.spare_bytes ≤ self.new.spare_bytes }
        ensures no_less_spans { self.old.spare_spans ≤ self.new.spare_spans }
    {
        let dead = self.bytes.len() - self.live;
        pack(&mut self.bytes, &mut self.places, &self.order[..self.used]);
        self.spare_bytes += dead;
        let in_use = sweep(&self.places, &mut self.order, self.used);
        self.spare_spans += self.used - in_use;
        self.used = in_use;
    }

    /// The bytes of the live spans together.
    pub fn live(&self) -> u64
        ensures value { result ≡ live_bytes self.now.spans }
        ensures fits { result < 2 ^ 63 }
    {
        let _region = self.bytes.as_slice();
        self.live as u64
    }

    /// The bytes that were given back and not yet made room of.
    pub fn dead(&self) -> u64
        ensures value { result ≡ self.now.dead }
    {
        (self.bytes.len() - self.live) as u64
    }

    /// The bytes of the region, live and dead.
    pub fn len(&self) -> u64
        ensures value { result ≡ live_bytes self.now.spans + self.now.dead }
    {
        self.bytes.len() as u64
    }

    /// How many more bytes it takes without memory.
    pub fn spare_bytes(&self) -> u64
        ensures value { result ≡ self.now.spare_bytes }
    {
        self.spare_bytes as u64
    }

    /// How many more spans it takes without memory.
    pub fn spare_spans(&self) -> u64
        ensures value { result ≡ self.now.spare_spans }
    {
        self.spare_spans as u64
    }

    /// That no two live spans have one slot.
    pub fn spans_are_apart_law(&self)
        ensures apart { AreApart self.now.spans }
    {
        let _ = &self.bytes;
    }
}
