ghost use Rattle.std.specs.Prelude.{◌≡◌, List, [], ◌∷◌, ◌++◌};
ghost use Rattle.std.specs.Borrow.{ftrue};

use std::marker::{Model, PhantomData};

/// A list that only proofs read, as `items`. It has no bytes.
///
/// Its items are the values that clauses see. Whoever notes one still has it: nothing of it is kept.
#[derive(Drop)]
pub struct Noted<T> {
    of: PhantomData<T>,
    pub ghost items: { List T },
}

impl<T> Model for Noted<T> {
    ghost also_owns = { λ _. ftrue };
}

// It owns nothing.
unsafe impl<T: Send> Send for Noted<T> {}

impl<T> Noted<T> {
    /// The empty list.
    pub fn new() -> Noted<T>
        ensures { result.items ≡ [] }
    {
        Noted { of: PhantomData }
    }

    /// The list with one item more.
    pub fn and(&self, item: &T) -> Noted<T>
        ensures { result.items ≡ self.now.items ++ item.now ∷ [] }
    {
        Noted { of: PhantomData }
    }
}
