/// In which form statements are given (xAPI 1.0.3, part three, section 2.1.3).
#[derive(Clone, Copy, Debug, PartialEq, Eq)]
pub enum Format {
    /// As they were received, with what the store adds.
    Exact,
    /// The same, of each Agent, Group, Activity and verb only what tells which one it is.
    Ids,
}
