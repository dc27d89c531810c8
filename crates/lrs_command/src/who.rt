/// What the history makes of a caller.
#[derive(Clone, Copy, Debug, PartialEq, Eq)]
pub enum Who {
    /// Nobody that the history knows.
    Unknown,
    /// The operator, or who presents the token that the store was founded with.
    Admin,
    /// Who presents the token that this provider was given. Providers are counted from 0, in the order in which they
    /// were made.
    Provider(u32),
    /// Who presents the token that was given away for the fetch key of this launch. Launches are counted from 0, in
    /// their order.
    Session(u32),
}
