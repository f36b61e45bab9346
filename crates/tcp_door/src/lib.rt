//! The door and the clock of the machine: connections over TCP, each with an end to its waits, and the moments of the
//! system's clock. Both count their faults and tell nothing of content. It stands on `gw_base`, whose traits `Door`
//! and `Clock` it meets. Its point is that `TcpDoor` meets the clauses of `Door`, and `SystemClock` those of `Clock`,
//! over any machine.
#![tactic(auto)]

mod accepting;
mod clock;
mod connection;
mod door;
mod limits;

pub use clock::SystemClock;
pub use door::TcpDoor;
pub use limits::Limits;
