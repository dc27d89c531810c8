//! Inputs, outputs, links, doors and the lobby in memory: each tells all that it holds, and fails on the calls that a
//! test names. By gates, links in different threads wait for one another. Begin with `MemLink`.
#![tactic(auto)]

mod clock;
mod door;
mod gate;
mod gate_door;
mod gate_link;
mod input;
mod link;
mod lobby;
mod output;
mod sink;
mod source;

pub use door::MemDoor;
pub use gate::{Gate, Sign, Until};
pub use gate_door::GateDoor;
pub use gate_link::GateLink;
pub use link::MemLink;
pub use lobby::MemLobby;
pub use sink::MemSink;
pub use source::MemSource;
