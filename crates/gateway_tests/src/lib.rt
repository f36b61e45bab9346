//! The top call over devices in memory, and each real device once. It stands on `gateway_top` and what that takes; it
//! stands apart from it, since the tests of a crate are proved with its whole text. Its point is that the real devices
//! do what the objects in memory do, byte for byte, on one case each.
#![tactic(auto)]

#[cfg(test)]
mod of_gateway_top;
