// The positions under one key.
ghost use Rattle.std.specs.Prelude.{◌≡◌, [], ◌∷◌, nat_lt, true, slice_get, IfOk, OnOk, OnErr, Some};
ghost use Rattle.std.specs.List.{list_any};
ghost use Rattle.xapi_postings.specs.Ascending.{below};
ghost use Rattle.xapi_postings.specs.Postings.{is_last, posted};

use lrs_json::Memory;
use std::alloc::Global;
use std::marker::Model;

/// The positions under one key, at least one.
#[derive(Drop)]
pub struct Positions {
    list: Vec<u32>,
}

impl Model for Positions {
    ghost use Rattle.std.specs.Prelude.{◌<◌, List, ℕ, vec_len};

    ghost Value = { List ℕ };

    ghost view = { λ p. p.list.items };

    ghost invariant = { λ p. 0 < vec_len p.list };
}

impl Positions {
    pub fn of(alloc: Global, position: u32) -> Result<Positions, Memory>
        ensures { IfOk result (λ positions. positions ≡ position ∷ []) }
    {
        let mut list = Vec::new(alloc);
        list.push(position)?;
        Ok(Positions { list })
    }

    pub fn as_slice(&self) -> &[u32]
        ensures { result.now ≡ self.now }
    {
        self.list.as_slice()
    }

    pub fn first(&self) -> u32
        ensures { Some result ≡ slice_get self.now 0 }
    {
        self.list[0]
    }

    /// Puts a position at the end, if it isn't there yet.
    pub fn put(&mut self, position: u32) -> Result<(), Memory>
        ensures posted { OnOk result (self.new ≡ posted position self.old) }
        ensures same { OnErr result (self.new ≡ self.old) }
    {
        if self.ends_with(position) {
            return Ok(());
        }
        self.list.push(position)?;
        Ok(())
    }

    fn ends_with(&self, position: u32) -> bool
        ensures { result ≡ is_last position self.now }
    {
        match self.as_slice().last() {
            Some(last) => *last == position,
            None => false,
        }
    }

    /// Leaves those below a bound. It takes no memory.
    pub fn cut(&mut self, n: usize)
        requires { list_any (λ k. nat_lt k n) self.old ≡ true }
        ensures { self.new ≡ below n self.old }
    {
        self.list.retain(|k| (*k as usize) < n);
    }
}
