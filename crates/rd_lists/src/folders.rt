//! The folders of an object, and the name that it has in them (CMIS 1.1, section 2.2.3.5).
ghost use Rattle.std.specs.Prelude.{◌≡◌, [], IfOk, map, unwrap_or};
ghost use Rattle.std.specs.Option.{option_copied};
ghost use Rattle.cm_map.specs.Parts.{pointee};
ghost use Rattle.cmis_spec.specs.Access.{parents_of};
ghost use Rattle.rd_lists.specs.Folders.{folders_of, is_fileable, segment_of};

use crate::number::{read_among, rising};
use cm_base::number::Oid;
use cm_base::object::Object;
use cm_base::text::Text;
use cm_map::map::Map;
use cm_state::look::entry_of;
use cm_state::state::State;
use std::alloc::{AllocError, Global};

/// Whether objects of this one's type may stand in folders.
pub fn is_fileable(state: &State, x: &Object) -> bool
    ensures { result ≡ is_fileable state.now x.now }
{
    match state.type_named(&x.kind) {
        Some(kind) => kind.fileable,
        None => false,
    }
}

fn values_of(alloc: Global, folders: &Map<u64, Oid>) -> Result<Vec<Oid>, AllocError>
    ensures { IfOk result (λ all. all.items ≡ map (λ e. e.1) folders.now) }
{
    let mut all = Vec::new(alloc);
    for entry in folders.iter() {
        let at: &(u64, Oid) = entry;
        all.push(at.1)?;
    }
    Ok(all)
}

fn numbers_of(alloc: Global, folders: Option<&Map<u64, Oid>>) -> Result<Vec<Oid>, AllocError>
    ensures { IfOk result (λ all. all.items ≡ map (λ e. e.1) (unwrap_or (option_copied folders.entry) [])) }
{
    match folders {
        Some(folders) => {
            let all = values_of(alloc, folders)?;
            Ok(all)
        }
        None => Ok(Vec::new(alloc)),
    }
}

// The folders that the caller reads in which the entry is filed, in the order of their numbers.
fn parents_of<'a>(
    alloc: Global,
    state: &'a State,
    user: &Text,
    n: Oid,
) -> Result<Vec<&'a Object>, AllocError>
    ensures { IfOk result (λ all. map pointee all.items ≡ parents_of state.now user.now n) }
{
    let _step = state.step();
    let numbers = numbers_of(alloc, state.folders(n))?;
    let rising = rising(alloc, &numbers)?;
    let all = read_among(alloc, state, user, rising.as_slice())?;
    Ok(all)
}

/// The folders that the caller reads in which the object stands, in the order of their numbers: a document stands where its series is
/// filed, a working copy and the root stand in none.
pub fn folders_of<'a>(
    alloc: Global,
    state: &'a State,
    user: &Text,
    x: &Object,
) -> Result<Vec<&'a Object>, AllocError>
    ensures { IfOk result (λ all. map pointee all.items ≡ folders_of state.now user.now x.now) }
{
    if state.owner_of(x).is_some() {
        return Ok(Vec::new(alloc));
    }
    let all = parents_of(alloc, state, user, entry_of(x))?;
    Ok(all)
}

/// The name that the object has in its folders, where it is asked for.
pub fn segment_of(
    alloc: Global,
    state: &State,
    asked: bool,
    x: &Object,
) -> Result<Option<Text>, AllocError>
    ensures { IfOk result (λ s. s ≡ segment_of state.now asked x.now) }
{
    if asked {
        let name = Text::from_str(alloc, state.entry_text(entry_of(x)))?;
        Ok(Some(name))
    } else {
        Ok(None)
    }
}
