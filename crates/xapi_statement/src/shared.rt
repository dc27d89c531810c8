ghost use Rattle.std.specs.Prelude.{◌≡◌, IfOk};

use crate::Authority;
use lrs_json::Memory;
use std::alloc::Global;
use std::marker::Model;
use std::sync::Arc;
use xapi_received::WrittenAuthority;

/// An authority that statements share, seen as the authority: many stand under one, whose name is then kept once, and
/// the text that each shows of it.
#[derive(Drop)]
pub struct SharedAuthority {
    shared: Arc<WrittenAuthority>,
}

impl Model for SharedAuthority {
    ghost use Rattle.std.specs.Arc.{arc_value};
    ghost use Rattle.xapi_received.specs.XapiFormatAuthorityAuthority.{Authority as SpecAuthority};

    ghost Value = { SpecAuthority };

    ghost view = { λ s. arc_value s.shared };
}

impl SharedAuthority {
    pub fn of(alloc: Global, authority: Authority) -> Result<SharedAuthority, Memory>
        ensures { IfOk result (λ shared. shared ≡ authority) }
    {
        let written = WrittenAuthority::of(alloc, authority)?;
        let shared = Arc::new(alloc, written)?;
        Ok(SharedAuthority { shared })
    }

    /// The authority, lent.
    pub fn get(&self) -> &Authority
        ensures { result.now ≡ self.now }
    {
        self.written().authority()
    }

    /// The same with its text.
    pub fn written(&self) -> &WrittenAuthority
        ensures { result.now ≡ self.now }
    {
        &*self.shared
    }

    /// The same for one more statement. Nothing is copied.
    pub fn again(&self) -> Result<SharedAuthority, Memory>
        ensures { IfOk result (λ other. other ≡ self.now) }
    {
        let shared = Arc::try_clone(&self.shared)?;
        Ok(SharedAuthority { shared })
    }
}
