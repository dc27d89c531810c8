//! The real outside: files, standard input and output, TCP connections, the system's clock.
//!
//! Each object is a few lines. None tells what it holds, since no contract can say what a file, a terminal or a socket
//! gives. Each counts its failed calls. That a file is an honest disk is trusted.
//!
//! Small reads of a file are answered from larger ones (`ahead`). That such an answer is what a read gives is proved of
//! any bytes that tell what they hold. Small writes that follow one another are gathered into larger ones (`behind`).
//!
//! If a call of a file or an address fails, standard error says why in one line, with the name of the file or the
//! address. The lobby also says there where it listens.
#![tactic(auto)]

mod ahead;
mod behind;
mod clock;
mod disk;
mod door;
mod faults;
mod file;
mod link;
mod lobby;
mod pace;
mod reports;
mod rooms;
mod shelf;
mod streams;

pub use ahead::READ_AHEAD;
pub use behind::WRITE_BEHIND;
pub use disk::FileDisk;
pub use door::TcpDoor;
pub use link::TcpLink;
pub use lobby::TcpLobby;
pub use pace::{FIRST_BYTE_SECONDS, Patience, REQUEST_SECONDS, RESPONSE_SECONDS};
pub use shelf::FileShelf;
pub use streams::{StdSink, StdSource};
