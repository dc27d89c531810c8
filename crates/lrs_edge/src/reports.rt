use std::fmt::Display;
use std::io::{self, ErrorKind};

// What went wrong, in plain words if there are some.
fn plain_words(kind: ErrorKind) -> Option<&'static str> {
    match kind {
        ErrorKind::WouldBlock => Some("another program works on it"),
        ErrorKind::IsADirectory => Some("it is a directory"),
        ErrorKind::NotADirectory => Some("its folder is not a directory"),
        ErrorKind::NotFound => Some("its folder does not exist"),
        ErrorKind::AlreadyExists => Some("another program has made it meanwhile"),
        ErrorKind::PermissionDenied => Some("no permission"),
        ErrorKind::ReadOnlyFilesystem => Some("the file system is read-only"),
        ErrorKind::StorageFull => Some("no room on the disk"),
        ErrorKind::QuotaExceeded => Some("the quota is used up"),
        ErrorKind::FileTooLarge => Some("the system allows no file of this size"),
        ErrorKind::OutOfMemory => Some("no memory"),
        ErrorKind::AddrInUse => Some("the address is in use"),
        ErrorKind::AddrNotAvailable => Some("this machine does not have the address"),
        _ => None,
    }
}

// Says on standard error, in one line, why something can't be done with a file or an address. A line that can't be
// written is let go.
pub(crate) fn report<N: Display>(rt: &impl Eprint, name: &N, action: &str, error: &io::Error) {
    let _ = match plain_words(error.kind()) {
        Some(words) => eprintln!(rt; "{name}: cannot {action}: {words}"),
        None => eprintln!(rt; "{name}: cannot {action}: {error}"),
    };
}
