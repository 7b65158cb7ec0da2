//! The objects of the document types (CMIS 1.1, section 2.1.4), found by the index of types.
ghost use Rattle.std.specs.Prelude.{◌≡◌, ◌++◌, ◌∷◌, [], IfOk, OnOk, map};
ghost use Rattle.cm_map.specs.Parts.{pointee};
ghost use Rattle.cm_types.specs.declared.definition.BaseType.TheVariants as bases;
ghost use Rattle.cm_types.specs.Types.{same_base};
ghost use Rattle.row_store.specs.Rows.{of_types};
ghost use Rattle.rd_trees.specs.Walks.{document_types};

use cm_base::copies::Copies;
use cm_base::items::Items;
use cm_base::number::Oids;
use cm_base::text::Texts;
use cm_state::state::State;
use cm_types::definition::{BaseType, TypeDef};
use row_store::store::RowStore;
use state_rows::store::StateRows;
use std::alloc::{AllocError, Global};

fn is_document(base: BaseType) -> bool
    ensures { result ≡ same_base bases.Document base }
{
    match base {
        BaseType::Document => true,
        _ => false,
    }
}

// Adds the id of the type, if it is one of documents.
fn push_document_type(alloc: Global, all: &mut Texts, def: &TypeDef) -> Result<(), AllocError>
    ensures { OnOk result (all.new ≡ all.old ++ document_types (def.now ∷ [])) }
{
    if is_document(def.base) {
        all.push(def.id.copied(alloc)?)?;
    }
    Ok(())
}

fn document_types(alloc: Global, types: &[&TypeDef]) -> Result<Texts, AllocError>
    ensures { IfOk result (λ all. all ≡ document_types (map pointee types.now)) }
{
    let mut all = Items::new(alloc);
    for def in types {
        push_document_type(alloc, &mut all, *def)?;
    }
    Ok(all)
}

/// The numbers of the objects of the document types, rising. It looks at these, and at a bounded number of others for each type.
pub(crate) fn documents(alloc: Global, state: &State) -> Result<Oids, AllocError>
    ensures { IfOk result (λ all. all ≡ of_types state.now (document_types state.now.types)) }
{
    let types = state.types().all(alloc)?;
    let kinds = document_types(alloc, &types)?;
    let rows = StateRows::of(state);
    let all = rows.of_types(alloc, &kinds)?;
    Ok(all)
}
