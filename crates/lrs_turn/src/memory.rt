/// Out of memory: the one answer that needs no cause.
#[derive(Clone, Copy, Debug, PartialEq, Eq)]
pub struct Memory;
