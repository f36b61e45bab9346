//! The laws of what is written and what it means, each the contract of a function that does nothing.
ghost use Rattle.std.specs.Prelude.{ℤ, List};
ghost use Rattle.std.specs.List.{AllByRecursion};
ghost use Rattle.gw_base.specs.Moments.{IsMoment};
ghost use Rattle.gw_base.specs.declared.messages.Entity.{Entity};
ghost use Rattle.feed_writing.specs.Writable.{IsWritable};
ghost use Rattle.feed_writing.specs.Written.{written, written_feed};
ghost use Rattle.feed_reading.specs.Tables.{MeansFeed, MeansEntity, full_dataset};

/// A header followed by written entities means the full dataset of just these, where each can be written, as
/// `entity_bytes` ensures of those that it writes.
pub fn a_written_feed_is_meant_law()
    ensures { (moment : ℤ) (entities : List Entity) → IsMoment moment → AllByRecursion IsWritable entities
        → MeansFeed (written_feed moment entities) (full_dataset moment entities) }
{}

/// The same of all entities whose bytes mean them.
pub fn meant_entities_make_a_feed_law()
    ensures { (moment : ℤ) (entities : List Entity) → IsMoment moment
        → AllByRecursion (λ entity. MeansEntity (written entity) entity) entities
        → MeansFeed (written_feed moment entities) (full_dataset moment entities) }
{}
