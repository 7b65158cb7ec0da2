//! A session's token.
ghost use Rattle.std.specs.Prelude.{◌≡◌, length};

use crate::board::Place;
use desk_model::{Keeper, Machine, Version};
use std::marker::Model;
use std::sync::Arc;

/// A pass of a lock: its number, the journal that it has seen, its own entries, and the passes that ended into it.
/// The first pass also has the number of passes that were made, itself counted.
#[derive(Drop)]
pub struct Pass<M: Machine, K: Keeper<M>> {
    pub(crate) place: Place<M, K>,
    pub(crate) began: Arc<Version<M>>,
    pub(crate) number: u32,
    pub(crate) made: u32,
    pub(crate) start: u64,
    pub(crate) seen: u64,
    pub(crate) own: u64,
}

impl<M: Machine, K: Keeper<M>> Model for Pass<M, K> {
    ghost use Rattle.std.specs.Prelude.{◌≡◌, [], length, Some};
    ghost use Rattle.std.specs.Arc.{arc_value};
    ghost use Rattle.desk_lock.specs.Seats.{IsIdle};
    ghost use Rattle.desk_lock.specs.Words.{PassView};

    ghost Value = { PassView M.State M.Call };

    ghost view = { λ p. record {
      table = p.place.table_id;
      known = record {
        opening = (arc_value p.began).opening;
        base = p.place.me.0.start;
        session = p.place.me.0.number;
        seen = p.place.me.0.seen;
        own = p.place.me.0.own;
      };
      sure = p.place.me.0.sure;
      made = p.place.me.0.made;
      ended = p.place.me.0.ended;
    } };

    ghost invariant = { λ p. (p.place.me.1 ≡ []) × IsIdle p.place.me.0 × (p.place.me.0.live ≡ 1)
        × (p.place.me.0.told ≡ []) × (p.place.me.0.told_sure ≡ 0)
        × (p.place.me.0.origin ≡ Some (arc_value p.began).opening) × (p.number ≡ p.place.me.0.number)
        × (p.start ≡ p.place.me.0.start) × (p.seen ≡ length p.place.me.0.seen) × (p.own ≡ length p.place.me.0.own)
        × (p.made ≡ p.place.me.0.made) };
}

impl<M: Machine, K: Keeper<M>> Pass<M, K> {
    /// Its number. It takes no memory.
    pub fn number(&self) -> u32
        ensures { result ≡ self.now.known.session }
    {
        self.number
    }

    // The length of the journal with which its lock began.
    pub(crate) fn began_at(&self) -> u64
        ensures { result ≡ self.now.known.base }
    {
        self.start
    }

    /// The length of the journal that it has seen. It takes no memory.
    pub fn seen(&self) -> u64
        ensures { result ≡ length self.now.known.seen }
    {
        self.seen
    }
}
