//! Zones: the rules of a place's clock, read by `jiff` from a POSIX rule or from a TZif file.
ghost use Rattle.std.specs.Prelude.{◌≡◌, ◌↔◌, ◌<◌, ℤ, Err, IsOk, IsErr, IsSome, IfOk, IfErr};
ghost use Rattle.jiff_core.specs.declared.civil.datetime.DateTime.{DateTime as Shown};
ghost use Rattle.jiff_tz.specs.Ambiguous.{compatible_offset};
ghost use Rattle.jiff_tz.specs.PosixReader.{read_whole};
ghost use Rattle.jiff_tz.specs.TzifReader.{read_tzif};
ghost use Rattle.jiff_tz.specs.Zone as Jiff;
ghost use Rattle.jiff.specs.ZoneView.{plain_zone};

use jiff::tz::{TimeZone, Tzif};
use jiff_core::Error;
use std::alloc::Global;
use std::marker::Model;

/// The rules of a place's clock. A contract sees them as `Rules`.
#[derive(Drop)]
pub struct Zone {
    rules: Rules,
}

/// A zone's rules, of the kind that it was read from.
#[derive(Drop)]
pub enum Rules {
    /// Those of a POSIX rule.
    Rule(TimeZone<'static>),
    /// The table of a TZif file.
    Table(Tzif),
}

impl Model for Zone {
    ghost use Rattle.service_day.specs.declared.zones.Rules.{Rules};

    ghost Value = { Rules };

    ghost view = { λ zone. zone.rules };
}

/// Why a zone wasn't read.
#[derive(Clone, Copy, Debug, PartialEq, Eq)]
pub enum ZoneFault {
    /// The text is no POSIX rule, or the bytes are no TZif file (RFC 9636).
    Refused,
    /// Want of memory.
    Memory,
}

impl Zone {
    ghost use Rattle.service_day.specs.declared.zones.Rules.{Rules};
    ghost use Rattle.service_day.specs.Zones.{IsRuleZone, IsBadRule, IsTableZone, IsBadTable, offset_at, local_offset};

    /// The zone of a POSIX rule such as `CET-1CEST,M3.5.0,M10.5.0/3`. Refused exactly where `jiff`
    /// reads no rule from the text. Takes no memory.
    pub fn from_rule(text: &str) -> Result<Zone, ZoneFault>
        ensures succeeds { IsOk result ↔ IsSome (read_whole text.now) }
        ensures value { IfOk result (IsRuleZone text.now) }
        ensures refused { IsErr result → IsBadRule text.now }
        ensures err { IfErr result (λ fault. fault ≡ ZoneFault.Refused) }
    {
        match TimeZone::posix(text) {
            Ok(zone) => Ok(Zone {
                rules: Rules::Rule(zone),
            }),
            Err(_) => Err(ZoneFault::Refused),
        }
    }

    /// The zone of a TZif file (RFC 9636). Refused exactly where `jiff` reads no zone from the bytes for
    /// another cause than memory: they aren't of the format, or the footer's rule doesn't agree with the
    /// table. No bytes are both: what is refused once is never taken, and what is taken never refused.
    pub fn from_file(alloc: Global, bytes: &[u8]) -> Result<Zone, ZoneFault>
        ensures value { IfOk result (IsTableZone bytes.now) }
        ensures refuses { IsErr (read_tzif bytes.now) → result ≡ Err ZoneFault.Refused }
        ensures refused { result ≡ Err ZoneFault.Refused → IsBadTable bytes.now }
        ensures never_taken { result ≡ Err ZoneFault.Refused → (rules : Rules) → IsTableZone bytes.now rules → ⊥ }
        ensures never_refused { IsOk result → IsBadTable bytes.now → ⊥ }
    {
        match Tzif::parse(alloc, None, bytes) {
            Ok(table) => Ok(Zone {
                rules: Rules::Table(table),
            }),
            Err(Error::OutOfMemory) => Err(ZoneFault::Memory),
            Err(_) => Err(ZoneFault::Refused),
        }
    }

    /// The zone as `jiff` takes it.
    pub(crate) fn time_zone(&self) -> TimeZone<'_>
        ensures instants { (nanos : ℤ)
            → Jiff.offset_at (plain_zone result) nanos ≡ offset_at self.now nanos }
        ensures clocks { (shown : Shown)
            → (compatible_offset (Jiff.ambiguous_at (plain_zone result) shown)).seconds ≡ local_offset self.now shown }
    {
        match &self.rules {
            Rules::Rule(zone) => *zone,
            Rules::Table(table) => TimeZone::tzif(table),
        }
    }
}
