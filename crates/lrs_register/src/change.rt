// What is changed in a register.
ghost use Rattle.std.specs.Prelude.{◌≡◌};
ghost use Rattle.lrs_register.specs.Changes.{changes, unchanged};

/// What is changed in a register: an item that comes, and one that takes the place of the first with its key.
#[derive(Drop)]
pub struct Change<T: Drop> {
    pub new: Option<T>,
    pub replaced: Option<T>,
}

impl<T: Drop> Change<T> {
    /// No change.
    pub fn none() -> Change<T>
        ensures { result ≡ unchanged }
    {
        Change {
            new: None,
            replaced: None,
        }
    }

    /// That an item comes.
    pub fn of_new(item: T) -> Change<T>
        ensures { result ≡ record unchanged { new = Some item } }
    {
        Change {
            new: Some(item),
            replaced: None,
        }
    }

    /// Whether anything is changed.
    pub fn changes(&self) -> bool
        ensures { result ≡ changes self.now }
    {
        self.new.is_some() || self.replaced.is_some()
    }
}
