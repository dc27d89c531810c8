use crate::Allow;
use crate::operation::Operation;
use lrs_command::{Area, Command};
use lrs_json::Memory;
use lrs_record::Caller;

/// A request that has a route, before its parameters and its body are looked at.
#[derive(Drop)]
pub struct Routed {
    /// Who asks.
    pub caller: Caller,
    /// Whom the route answers.
    pub area: Area,
    pub(crate) operation: Operation,
}

impl Routed {
    /// Drops it. Crates above call this in place of `drop`, so that what drops it is proved here alone.
    pub fn discard(self) {
        drop(self);
    }
}

/// What a request asks: who asks, and what for.
#[derive(Drop)]
pub struct Asked {
    pub caller: Caller,
    pub command: Command,
}

/// Why a request asks for nothing.
#[derive(Clone, Copy, Debug, PartialEq, Eq)]
pub enum RouteRefused {
    /// No route has the path: 404.
    NoRoute,
    /// The path's route doesn't have the method, but these: 405.
    NoMethod { allow: Allow },
    /// The version of xAPI isn't named, or another one is: 400, rule V1.
    NoVersion,
    /// Out of memory.
    Memory,
}

impl From<Memory> for RouteRefused {
    ghost use Rattle.std.specs.Prelude.{◌≡◌};
    ghost use Rattle.lrs_routes.specs.declared.asked.RouteRefused.TheVariants as refused;

    ghost from_gives = { λ _ e. e ≡ refused.Memory };

    fn from(_: Memory) -> RouteRefused {
        RouteRefused::Memory
    }
}
