// What proofs know at the table of the turn. No value of these types is made.
use std::collections::LinkedList;
use std::snapshot::Snapshot;

/// What one pass has seen.
#[derive(Drop)]
pub struct Sight<T: Drop> {
    pub front: LinkedList<T>,
    pub marks: LinkedList<u64>,
    pub tide: LinkedList<u64>,
    pub opening: u64,
    /// How many passes the turns have.
    pub passes: u64,
}

/// What a seat at the table knows. It stands for one pass or for several, each with its sight: the rule says of each
/// that it fits, and so none may be lost where passes come back.
#[derive(Drop)]
pub struct View<T: Drop> {
    pub sights: LinkedList<Sight<T>>,
    pub own: LinkedList<u64>,
    /// For how many passes it stands.
    pub parts: u64,
    /// Whether it holds the turn.
    pub holds: bool,
    /// Whether the slot is out with it.
    pub out: bool,
    /// The committed list, and the tide of the state when it was taken. Both count only while it holds the turn.
    pub line: LinkedList<T>,
    pub level: LinkedList<u64>,
}

/// With what the turns were made.
#[derive(Drop)]
pub struct Opening<S: Drop> {
    pub state: Snapshot<S>,
    pub passes: u32,
}
