//! The top call: the words of a command are carried out over files, a door of connections, a clock and two streams. A
//! command writes its result and ends with a status; a server takes deliveries and feeds and answers both, and may keep
//! what it took in a journal. The real files and streams stand beside it. It stands on `command_words`, `file_commands`
//! and `gateway_server`. Its point is `gateway`, clauses `headline`, `publishes` and `run`, and with a journal
//! `gateway_kept`, clause `crash` too.
#![tactic(auto)]

mod devices;
mod ending;
mod kept;
mod kept_run;
mod server_run;
mod task_run;
mod top;

pub use command_words::{address, journal};
pub use devices::{DirFiles, StdSink};
pub use kept::gateway_kept;
pub use top::{gateway, no_memory, print};
