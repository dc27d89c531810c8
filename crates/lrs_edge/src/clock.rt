use std::time::{Clock, SystemTime};

// Milliseconds since 1970. A clock that can't be read is at 0, as one that shows a time before 1970.
pub(crate) fn milliseconds(rt: &impl Clock) -> u64 {
    let Ok(now) = SystemTime::now(rt) else {
        return 0;
    };
    match now.duration_since(SystemTime::UNIX_EPOCH) {
        Ok(since) => since.as_millis().min(u64::MAX as u128) as u64,
        Err(_) => 0,
    }
}
