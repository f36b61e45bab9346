//! A delivery: its items, and why one is refused. The functions meet `specs/Deliveries.antt`.
ghost use Rattle.std.specs.Prelude.{◌≡◌, [], OnOk};
ghost use Rattle.siri_json.specs.Deliveries.{IsAdded};

use gw_base::{List, Member};
use journey_model::Fault;
use json_tree::TreeFault;
use std::alloc::{AllocError, AllocFailed, Global};

/// Why a delivery is refused.
#[derive(Clone, Copy, Debug, PartialEq, Eq)]
pub enum DeliveryFault {
    /// It isn't JSON in UTF-8.
    NotJson,
    /// The way down to its items is broken at this member.
    NotDelivery(Member),
    /// Want of memory.
    Memory,
}

impl From<AllocError> for DeliveryFault {
    ghost use Rattle.std.specs.Prelude.{◌≡◌};
    ghost use Rattle.siri_json.specs.declared.delivery.DeliveryFault.TheVariants.{Memory};

    ghost from_gives = { λ _ e. e ≡ Memory };

    fn from(_e: AllocError) -> DeliveryFault {
        DeliveryFault::Memory
    }
}

impl<T: Drop> From<AllocFailed<T>> for DeliveryFault {
    ghost use Rattle.std.specs.Prelude.{◌≡◌};
    ghost use Rattle.siri_json.specs.declared.delivery.DeliveryFault.TheVariants.{Memory};

    ghost from_gives = { λ _ e. e ≡ Memory };

    fn from(_e: AllocFailed<T>) -> DeliveryFault {
        DeliveryFault::Memory
    }
}

impl From<TreeFault> for DeliveryFault {
    ghost use Rattle.std.specs.Prelude.{◌≡◌};
    ghost use Rattle.siri_json.specs.Refusals.{refusal};

    ghost from_gives = { λ fault e. e ≡ refusal fault };

    fn from(fault: TreeFault) -> DeliveryFault {
        match fault {
            TreeFault::NotJson => DeliveryFault::NotJson,
            TreeFault::Memory => DeliveryFault::Memory,
        }
    }
}

impl From<Member> for DeliveryFault {
    ghost use Rattle.std.specs.Prelude.{◌≡◌};
    ghost use Rattle.siri_json.specs.declared.delivery.DeliveryFault.TheVariants.{NotDelivery};

    ghost from_gives = { λ member e. e ≡ NotDelivery member };

    fn from(member: Member) -> DeliveryFault {
        DeliveryFault::NotDelivery(member)
    }
}

/// What an item of a delivery is.
#[derive(Debug, Drop)]
pub enum Item<T> {
    /// What it says.
    Taken(T),
    /// It is set aside.
    Aside(Fault),
}

/// What a delivery says.
#[derive(Debug, Drop)]
pub struct Delivery<T> {
    /// Its items, in document order.
    pub items: List<Item<T>>,
    /// How many parts of the items that are taken were passed over; a count stays at its last value.
    pub passed: u64,
}

impl<T: Drop> Delivery<T> {
    /// A delivery without an item, which takes no memory.
    pub fn new(alloc: Global) -> Delivery<T>
        ensures items { result.items ≡ [] }
        ensures passed { result.passed ≡ 0 }
    {
        Delivery {
            items: List::new(alloc),
            passed: 0,
        }
    }

    /// One item more, with the verdict on it: what it says and how many of its parts were passed over, or the fault for
    /// which it is set aside. An error is want of memory.
    pub fn add(&mut self, verdict: Result<(T, u64), Fault>) -> Result<(), AllocError>
        ensures { OnOk result (IsAdded verdict self.old self.new) }
    {
        match verdict {
            Ok((one, passed)) => {
                self.items.push(Item::Taken(one))?;
                self.passed = self.passed.saturating_add(passed);
                Ok(())
            }
            Err(fault) => self.items.push(Item::Aside(fault)),
        }
    }
}
