//! Ids, numbered from 0 in the order in which they came. The functions meet `specs/Ids.antt`.
ghost use Rattle.std.specs.Prelude.{◌≡◌, ◌&&◌, ◌+◌, ◌≤◌, ◌<◌, ◌++◌, ◌∷◌, [], not, Some, is_some, if◌then◌else◌, length, slice_get, position, true, IfOk, OnOk, OnErr, IfSome, IsTrue};
ghost use Rattle.std.specs.Str.{bytes_eq};
ghost use Rattle.timetable.specs.Ids.{are_ids, has_id, has_id_len as has_len, is_id, with_id};
ghost use Rattle.timetable.specs.Limits.{number_limit};

use indexmap::IndexSet;
use std::alloc::{AllocError, Global};
use std::marker::Model;

/// The bytes that an id has at most.
pub const MAX_ID_LEN: usize = 200;

// The ids that can be numbered; those of a folder are fewer, by the rows that its files have at most.
const MAX_IDS: usize = 4_294_967_295;

// Whether bytes are as many as an id has.
fn has_id_len(id: &[u8]) -> bool
    ensures { result ≡ has_len id.now }
{
    !id.is_empty() && id.len() <= MAX_ID_LEN
}

/// Ids that differ, numbered from 0 in the order in which they came. A contract sees the list of them.
#[derive(Debug, Drop)]
pub struct Ids {
    ids: IndexSet<String>,
}

impl Model for Ids {
    ghost use Rattle.std.specs.Prelude.{◌≡◌, ◌≤◌, true, List, ℕ, map, length};
    ghost use Rattle.std.specs.String.{string_bytes};
    ghost use Rattle.timetable.specs.Ids.{are_ids};
    ghost use Rattle.timetable.specs.Limits.{number_limit};

    ghost Value = { List (List ℕ) };

    ghost view = { λ a. map string_bytes a.ids.keys };

    ghost invariant = { λ a. (are_ids (map string_bytes a.ids.keys) ≡ true) × (length a.ids.keys ≤ number_limit) };
}

impl Ids {
    /// No ids.
    pub fn new(alloc: Global) -> Ids
        ensures empty { result ≡ [] }
    {
        Ids {
            ids: IndexSet::new(alloc),
        }
    }

    /// The number of ids.
    pub fn len(&self) -> usize
        ensures value { result ≡ length self.now }
        ensures ids { IsTrue (are_ids self.now) }
        ensures few { result ≤ number_limit }
    {
        self.ids.len()
    }

    /// The number of an id.
    pub fn find(&self, id: &str) -> Option<u32>
        ensures place { result ≡ position (bytes_eq id.now) self.now }
        ensures found { is_some result ≡ has_id id.now self.now }
        ensures ids { IsTrue (are_ids self.now) }
        ensures within { IfSome result (λ place. place < length self.now) }
    {
        match self.ids.get_index_of(id) {
            Some(place) => Some(place as u32),
            None => None,
        }
    }

    /// The id of a number.
    pub fn at(&self, place: u32) -> &str
        requires { place < length self.now }
        ensures value { slice_get self.now place ≡ Some result.now }
        ensures ids { IsTrue (are_ids self.now) }
    {
        self.ids.get_index(place as usize).unwrap().as_str()
    }

    /// Adds an id at the end where it is one and is new, and says whether it was added. Want of memory
    /// leaves the ids as they were.
    pub fn add(&mut self, alloc: Global, id: &[u8]) -> Result<bool, AllocError>
        requires { length self.old < number_limit }
        ensures added { IfOk result (λ added. added ≡ (is_id id.now && not (has_id id.now self.old))) }
        ensures ids { IfOk result (λ added. self.new ≡ (if added then self.old ++ id.now ∷ [] else self.old)) }
        ensures few { OnOk result (length self.new ≤ length self.old + 1) }
        ensures kept { OnErr result (self.new ≡ self.old) }
    {
        if !has_id_len(id) {
            return Ok(false);
        }
        let has_room = self.ids.len() < MAX_IDS;
        prove!(has_room);
        let Ok(text) = str::from_utf8(id) else {
            return Ok(false);
        };
        let added = self.ids.insert(String::from_str(alloc, text)?)?;
        Ok(added)
    }

    /// The number of an id, which is added at the end where it is new. Want of memory leaves the ids as they
    /// were.
    pub fn number_of(&mut self, alloc: Global, id: &str) -> Result<u32, AllocError>
        requires id { is_id id.now ≡ true }
        requires room { length self.old < number_limit }
        ensures ids { IfOk result (λ _. self.new ≡ with_id id.now self.old) }
        ensures number { IfOk result (λ number. slice_get self.new number ≡ Some id.now) }
        ensures few { OnOk result (length self.new ≤ length self.old + 1) }
        ensures sound { OnOk result (IsTrue (are_ids self.new)) }
        ensures kept { OnErr result (self.new ≡ self.old) }
    {
        match self.find(id) {
            Some(number) => Ok(number),
            None => {
                let number = self.len() as u32;
                self.add(alloc, id.as_bytes())?;
                // the call shows that these are ids
                let _ = self.len();
                Ok(number)
            }
        }
    }

    /// Whether the number is that of an id.
    pub fn is_at(&self, id: &[u8], number: u32) -> bool
        ensures { result ≡ true → slice_get self.now number ≡ Some id.now }
    {
        (number as usize) < self.len() && self.at(number).as_bytes() == id
    }

    /// The same, by a number that is tried first.
    pub fn number_from(&mut self, alloc: Global, id: &str, number: u32) -> Result<u32, AllocError>
        requires id { is_id id.now ≡ true }
        requires room { length self.old < number_limit }
        ensures ids { IfOk result (λ _. self.new ≡ with_id id.now self.old) }
        ensures number { IfOk result (λ number. slice_get self.new number ≡ Some id.now) }
        ensures few { OnOk result (length self.new ≤ length self.old + 1) }
        ensures sound { OnOk result (IsTrue (are_ids self.new)) }
        ensures kept { OnErr result (self.new ≡ self.old) }
    {
        // the call shows that these are ids
        let _ = self.len();
        if self.is_at(id.as_bytes(), number) {
            return Ok(number);
        }
        self.number_of(alloc, id)
    }
}
