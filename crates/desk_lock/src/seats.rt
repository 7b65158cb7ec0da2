//! Seats that are made, split and joined.
ghost use Rattle.std.specs.Prelude.{◌≡◌, ℕ, ◌<◌, []};
ghost use mathlib.Core.Option.{none};
ghost use Rattle.atomic_table.specs.Table.{step};
ghost use Rattle.desk_lock.specs.Numbers.{most_passes};
ghost use Rattle.desk_lock.specs.Board.{IsSized};
ghost use Rattle.desk_lock.specs.Seats.{IsIdle, parent, child, told_by, took_in};
ghost use Rattle.desk_lock.specs.Steps.{caught};

use crate::board::{COUNT, Place, Top};
use crate::plays::{Bear, CatchUp, Help, TakeIn, Tell};
use desk_model::{Keeper, Machine};

/// A new pass's seat.
pub(crate) fn bear<M: Machine, K: Keeper<M>>(
    top: &Top<M, K>,
    place: &mut Place<M, K>,
) -> Place<M, K>
    requires table { (place.old.table_id ≡ top.now.table_id) × IsSized top.now.table_id }
    requires first { (place.old.me.0.live ≡ 1) × (0 < place.old.me.0.made) × (place.old.me.0.made < most_passes)
        × IsIdle place.old.me.0 }
    ensures seat { (place.new.table_id ≡ place.old.table_id) × (place.new.id ≡ place.old.id)
        × (result.table_id ≡ place.old.table_id) }
    ensures views { (place.new.me ≡ (parent place.old.me.0, place.old.me.1))
        × (result.me ≡ (child place.old.me.0, [])) }
{
    top.split_seat::<Bear>(place)
}

/// What the seat was told is seen, if it is longer.
pub(crate) fn catch_up<M: Machine, K: Keeper<M>>(top: &Top<M, K>, place: &mut Place<M, K>)
    requires table { (place.old.table_id ≡ top.now.table_id) × IsSized top.now.table_id }
    requires live { (place.old.me.0.live ≡ 1) × IsIdle place.old.me.0 }
    ensures seat { (place.new.table_id ≡ place.old.table_id) × (place.new.id ≡ place.old.id) }
    ensures seen { (n : ℕ) × caught (step 2 0 0 0 none) place.old.me n place.new.me }
{
    top.load::<CatchUp<M, K>>(place, COUNT);
}

/// What `from` has seen is seen, if it is longer.
pub(crate) fn hear<M: Machine, K: Keeper<M>>(
    top: &Top<M, K>,
    place: &mut Place<M, K>,
    from: &mut Place<M, K>,
)
    requires table { (place.old.table_id ≡ top.now.table_id) × (from.old.table_id ≡ top.now.table_id)
        × IsSized top.now.table_id }
    requires ready { (place.old.me.0.live ≡ 1) × IsIdle place.old.me.0 × IsIdle from.old.me.0 × (from.old.me.1 ≡ []) }
    ensures seat { (place.new.table_id ≡ place.old.table_id) × (place.new.id ≡ place.old.id)
        × (from.new.table_id ≡ from.old.table_id) × (from.new.id ≡ from.old.id) × (from.new.me ≡ from.old.me) }
    ensures seen { (n : ℕ) × caught (step 2 0 0 0 none)
        (told_by place.old.me.0 from.old.me.0, place.old.me.1) n place.new.me }
{
    let helper = top.split_seat::<Help>(from);
    top.join_seat::<Tell>(place, helper);
    catch_up(top, place);
}

/// The seat `gone` is joined into this one.
pub(crate) fn take_in<M: Machine, K: Keeper<M>>(
    top: &Top<M, K>,
    place: &mut Place<M, K>,
    gone: Place<M, K>,
)
    requires table { (place.old.table_id ≡ top.now.table_id) × (gone.table_id ≡ top.now.table_id)
        × IsSized top.now.table_id }
    requires ready { (place.old.me.0.live ≡ 1) × IsIdle place.old.me.0 × (gone.me.0.live ≡ 1) × (gone.me.0.made ≡ 0)
        × IsIdle gone.me.0 × (gone.me.1 ≡ []) }
    ensures seat { (place.new.table_id ≡ place.old.table_id) × (place.new.id ≡ place.old.id) }
    ensures seen { (n : ℕ) × caught (step 2 0 0 0 none)
        (took_in place.old.me.0 gone.me.0, place.old.me.1) n place.new.me }
{
    top.join_seat::<TakeIn>(place, gone);
    catch_up(top, place);
}
