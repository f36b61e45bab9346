//! Bodies that arrive: deliveries of journeys and of situations, and feeds. Each is prepared, which reads and judges it
//! and takes all memory, and then its change is made; between the two a body may be kept.
mod body;
mod feed;
mod journeys;
mod kept;
mod situations;

pub use body::{Body, BodyRefusal};
pub use kept::KeptFault;
