//! The launch desk, from a request to its reply: courses, registrations, launches, fetches and sessions, and how these end.
mod abandoning;
mod callers;
mod courses;
mod editions;
mod launches;
mod lists;
mod recovery;
mod relaunching;
mod sessions;
mod speaking;
mod sweeps;
mod units;
mod usual;
