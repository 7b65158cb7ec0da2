//! What a session holds.
ghost use Rattle.std.specs.Prelude.{◌≡◌};
ghost use Rattle.std.specs.Arc.{arc_value};

use desk_model::{Machine, Version};
use std::marker::Model;
use std::sync::Arc;

/// The version that a session holds, and the number of its entries.
#[derive(Drop)]
pub(crate) struct Held<M: Machine> {
    pub(crate) seen: Arc<Version<M>>,
    pub(crate) serial: u64,
}

impl<M: Machine> Model for Held<M> {
    ghost use Rattle.std.specs.Arc.{arc_value};
    ghost use Rattle.desk_core.specs.Holds.{Hold};

    ghost Value = { Hold M.State M.Call };

    ghost view = { λ h. record { seen = arc_value h.seen; serial = h.serial } };
}
