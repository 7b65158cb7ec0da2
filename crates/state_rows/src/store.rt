//! A state as a store of rows.
ghost use Rattle.std.specs.Prelude.{◌≡◌};

use crate::filed::filed_in;
use crate::kinds::is_of_types;
use crate::row::row_if;
use crate::walk::of_types;
use cm_base::number::{Oid, Oids};
use cm_base::steps::Steps;
use cm_base::text::Texts;
use cm_state::state::State;
use ql_eval::row::Row;
use row_store::search::Search;
use row_store::store::RowStore;
use std::alloc::{AllocError, Global};
use std::marker::Model;
use std::sync::ledger::Ledger;

/// A state whose rows queries read.
#[derive(Drop)]
pub struct StateRows<'a> {
    state: &'a State,
}

impl<'a> Model for StateRows<'a> {
    ghost use Rattle.cmis_spec.specs.Repository.{Repository};

    ghost Value = { Repository };

    ghost view = { λ s. s.state.now };
}

impl<'a> StateRows<'a> {
    /// The rows of this state.
    pub fn of(state: &'a State) -> StateRows<'a>
        ensures { result ≡ state.now }
    {
        StateRows { state }
    }
}

impl<'a> RowStore for StateRows<'a> {
    ghost means = { λ r. r };

    fn lawful(&self) {
        let _step = self.state.step();
    }

    fn of_types(&self, alloc: Global, kinds: &Texts) -> Result<Oids, AllocError> {
        of_types(alloc, self.state, kinds)
    }

    fn has_types(&self, kinds: &Texts, x: Oid) -> bool {
        match self.state.object(x) {
            Some(x) => is_of_types(kinds, x),
            None => false,
        }
    }

    fn filed_in(&self, alloc: Global, folder: Oid) -> Result<Oids, AllocError> {
        filed_in(alloc, self.state, folder)
    }

    fn row<L: Ledger>(
        &self,
        alloc: Global,
        search: &Search<'_>,
        x: Oid,
        steps: &mut Steps<L>,
    ) -> Result<Option<Row>, AllocError> {
        match self.state.fetch(x, steps) {
            Some(x) => row_if(alloc, self.state, search, x),
            None => Ok(None),
        }
    }
}
