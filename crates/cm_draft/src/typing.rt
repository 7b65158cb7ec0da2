//! The change of the list of types.
ghost use Rattle.std.specs.Prelude.{◌≡◌, IfOk, All};
ghost use Rattle.cm_types.specs.declared.definition.BaseType.TheVariants as bases;
ghost use Rattle.cm_types.specs.Types.{is_of_base};
ghost use Rattle.cmis_spec.specs.Changes.{with_types};

use crate::draft::Draft;
use crate::made::{given_up, put_types};
use cm_type_list::types::Types;
use std::alloc::{AllocError, Global};
use std::sync::Arc;

impl Draft {
    /// Other types, by which the same objects are folders.
    pub fn with_types(self, alloc: Global, types: Types) -> Result<Draft, AllocError>
        requires folders { All (λ x. is_of_base types bases.Folder x.kind
            ≡ is_of_base self.types bases.Folder x.kind) self.objects }
        ensures { IfOk result (λ d. d ≡ with_types self types) }
    {
        match Arc::new(alloc, types) {
            Ok(types) => Ok(put_types(self, types)),
            Err(failed) => Err(given_up(self, failed.into())),
        }
    }
}
