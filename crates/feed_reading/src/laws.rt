//! The laws of the meaning of feeds and of their faults, each the contract of a function that does nothing.
ghost use Rattle.std.specs.Prelude.{◌≡◌, ◌≢◌, ◌<◌, ◌++◌, ◌⊎◌, ℕ, List, [], length};
ghost use Rattle.std.specs.List.{concat};
ghost use Rattle.gw_base.specs.declared.messages.Entity.{Entity};
ghost use Rattle.gw_base.specs.declared.messages.Feed.{Feed};
ghost use Rattle.gw_base.specs.declared.required.Required.TheVariants.{Header, GtfsRealtimeVersion};
ghost use Rattle.gw_base.specs.declared.wire_kind.WireKind.{WireKind};
ghost use Rattle.gw_base.specs.declared.wire_kind.WireKind.TheVariants.{Truncated};
ghost use Rattle.wire_fields.specs.Grammar.{WireField, IsSpelling, AreFields};
ghost use Rattle.wire_fields.specs.Breaks.{IsBreak};
ghost use Rattle.feed_reading.specs.Meaning.{bodies};
ghost use Rattle.feed_reading.specs.Tables.{MeansFeed, MeansEntity, with_entity};
ghost use Rattle.feed_reading.specs.declared.fault.FeedFault.{FeedFault};
ghost use Rattle.feed_reading.specs.declared.fault.FeedFault.TheVariants.{EntityTooLong, Wire, MissingField};
ghost use Rattle.feed_reading.specs.Faults.{HasFault, IsFeedFault, IsLongAt};
ghost use Rattle.feed_reading.specs.FieldFaults.{Faultless, HasFieldFault, HasFaultAfter, IsFirst, moved, place_of};

/// Bytes mean at most one feed.
pub fn the_feed_is_one_law()
    ensures { (bytes : List ℕ) (feed other : Feed) → MeansFeed bytes feed → MeansFeed bytes other → feed ≡ other }
{}

/// An entity after a feed is one more entity of it.
pub fn an_entity_is_added_law()
    ensures { (front back : List ℕ) (feed : Feed) (entity : Entity) → MeansFeed front feed → MeansEntity back entity
        → MeansFeed (front ++ back) (with_entity feed entity) }
{}

/// Bytes have no fault exactly where they mean some feed and no entity is too long.
pub fn no_fault_where_a_feed_is_meant_law()
    ensures meant { (bytes : List ℕ) → ((fault : FeedFault) → ¬ HasFault bytes fault)
        → ((feed : Feed) × MeansFeed bytes feed) × ((at : ℕ) → ¬ IsLongAt bytes at) }
    ensures no_fault { (bytes : List ℕ) (feed : Feed) → MeansFeed bytes feed → ((at : ℕ) → ¬ IsLongAt bytes at)
        → (fault : FeedFault) → ¬ HasFault bytes fault }
{}

/// Bytes have a first fault, or they mean a feed of which no entity is too long.
pub fn a_fault_or_a_feed_law()
    ensures { (bytes : List ℕ) → ((fault : FeedFault) × IsFeedFault bytes fault)
        ⊎ (((feed : Feed) × MeansFeed bytes feed) × ((at : ℕ) → ¬ IsLongAt bytes at)) }
{}

/// The faults of a list of fields with what follows it are those of the fields and those of the rest, so much further;
/// but for a missing header or version, which is told at the end of the feed. So no fault of a rest comes before one of
/// the fields, and what is told of the first field that has a fault stays, whatever follows.
pub fn faults_are_found_field_by_field_law()
    ensures split { (front rest : List ℕ) (fields : List WireField) (fault : FeedFault) → AreFields front fields
        → HasFieldFault (front ++ rest) fault
        → HasFieldFault front fault ⊎ HasFaultAfter (length front) rest fault }
    ensures join { (front rest : List ℕ) (fields : List WireField) (fault : FeedFault) → AreFields front fields
        → HasFieldFault front fault ⊎ HasFaultAfter (length front) rest fault
        → HasFieldFault (front ++ rest) fault }
    ensures within { (bytes : List ℕ) (fault : FeedFault) → HasFieldFault bytes fault
        → place_of fault < length bytes }
    ensures first { (front spelling more : List ℕ) (fields : List WireField) (field : WireField) (fault : FeedFault)
        → AreFields front fields → Faultless front → IsSpelling 64 field spelling → IsFirst spelling fault
        → IsFeedFault (front ++ (spelling ++ more)) (moved (length front) fault) }
{}

/// After fields without a fault, what is no field has the feed's fault: an entity whose length is over the limit, or
/// else how the bytes break. Where they break in another way than that they end too early, no bytes that follow make
/// such an entity of them.
pub fn what_is_no_field_has_the_fault_law()
    ensures long { (front rest : List ℕ) (fields : List WireField) → AreFields front fields → Faultless front
        → IsLongAt rest 0 → IsFeedFault (front ++ rest) (EntityTooLong (length front)) }
    ensures broken { (front rest : List ℕ) (fields : List WireField) (kind : WireKind) → AreFields front fields
        → Faultless front → ¬ IsLongAt rest 0 → rest ≢ [] → IsBreak rest kind
        → IsFeedFault (front ++ rest) (Wire (record { at = length front; kind = kind })) }
    ensures short { (rest more : List ℕ) (kind : WireKind) → rest ≢ [] → IsBreak rest kind → kind ≢ Truncated
        → ¬ IsLongAt (rest ++ more) 0 }
{}

/// At the end of fields without a fault it is told that the header or its version is missing, and else there is no
/// fault. The version may stand in any of the headers, whose fields are put together.
pub fn what_is_missing_is_told_at_the_end_law()
    ensures header { (bytes : List ℕ) (fields : List WireField) → AreFields bytes fields → Faultless bytes
        → bodies 1 fields ≡ [] → IsFeedFault bytes (MissingField (length bytes) Header) }
    ensures version { (bytes : List ℕ) (fields inner : List WireField) → AreFields bytes fields → Faultless bytes
        → bodies 1 fields ≢ [] → AreFields (concat (bodies 1 fields)) inner → bodies 1 inner ≡ []
        → IsFeedFault bytes (MissingField (length bytes) GtfsRealtimeVersion) }
    ensures nothing { (bytes : List ℕ) (fields inner : List WireField) → AreFields bytes fields → Faultless bytes
        → bodies 1 fields ≢ [] → AreFields (concat (bodies 1 fields)) inner → bodies 1 inner ≢ []
        → (fault : FeedFault) → ¬ HasFault bytes fault }
{}
