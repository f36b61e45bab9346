//! Which number is tried first where rows name ids one after the other. Nothing rests on a guess.
use std::alloc::{AllocError, Global};
use timetable::Ids;

/// The number of the id that was named last, and of each id the number of the one that came after it the last time.
#[derive(Drop)]
pub(crate) struct Guesses {
    last: u32,
    followers: Vec<u32>,
}

impl Guesses {
    /// Of ids none of which was named so far.
    pub(crate) fn among(alloc: Global, ids: &Ids) -> Result<Guesses, AllocError> {
        let mut followers = Vec::new(alloc);
        for _ in 0..ids.len() {
            followers.push(0)?;
        }
        Ok(Guesses { last: 0, followers })
    }

    /// The number to try.
    pub(crate) fn next(&self) -> u32 {
        self.followers.get(self.last as usize).copied().unwrap_or(0)
    }

    /// Notes which id was named.
    pub(crate) fn note(&mut self, number: u32) {
        if let Some(follower) = self.followers.get_mut(self.last as usize) {
            *follower = number;
        }
        self.last = number;
    }
}
