//! The caller that a connection saw let in last.
ghost use Rattle.std.specs.Prelude.{◌≡◌, ◌↔◌, Some, IfOk, IsTrue};
ghost use Rattle.lrs_hall.specs.Steps.{admitted_of};

use lrs_command::Area;
use lrs_json::Memory;
use lrs_record::Caller;
use lrs_routes::Routed;

/// A caller that was let in, and the area that it was let into.
#[derive(Drop)]
pub(crate) struct Admitted {
    caller: Caller,
    area: Area,
}

impl Admitted {
    /// Those of a request whose caller was let in.
    pub(crate) fn of(routed: &Routed) -> Result<Admitted, Memory>
        ensures { IfOk result (λ admitted. admitted ≡ admitted_of routed.now) }
    {
        let caller = routed.caller.copy()?;
        let area = routed.area;
        Ok(Admitted { caller, area })
    }
}

/// Whether the caller of a request is that one, and asks in the same area. Takes no memory.
pub(crate) fn was_let_in(admitted: &Option<Admitted>, routed: &Routed) -> bool
    ensures { IsTrue result ↔ (admitted.now ≡ Some (admitted_of routed.now)) }
{
    match admitted {
        Some(last) => last.area == routed.area && last.caller.is_same(&routed.caller),
        None => false,
    }
}
