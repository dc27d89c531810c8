/// What one act draws by chance: the word from which its first id is made, and the secret of its token.
#[derive(Clone, Copy, Debug, PartialEq, Eq)]
pub struct Draw {
    pub name: u128,
    pub secret: u128,
}
