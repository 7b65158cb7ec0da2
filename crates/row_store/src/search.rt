//! Searches: what a query asks of a store.
use cm_base::text::Text;
use ql_bind::bound::Bound;
use std::marker::Model;

/// A search: who asks, for what, and whether each version is a row.
#[derive(Drop)]
pub struct Search<'a> {
    pub user: &'a Text,
    pub bound: &'a Bound,
    pub versions: bool,
}

impl<'a> Model for Search<'a> {
    ghost use Rattle.std.specs.Coded.{codes};
    ghost use Rattle.ql_bind.specs.contracts.bound.Condition as condition;
    ghost use Rattle.row_store.specs.Rows.{Search as Sought};

    ghost Value = { Sought };

    ghost coded = { Prim.hlevel (codes, condition.the_row.coded) };

    ghost view = { λ s. record { user = s.user.now; bound = s.bound.now; versions = s.versions } };
}
