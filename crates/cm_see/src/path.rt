//! Objects by their names, and the paths of folders (CMIS 1.1, section 2.1.5.3).
ghost use Rattle.std.specs.Prelude.{◌≡◌, ◌++◌, [], Option, Some, None, IfOk, string_bytes, codes};
ghost use Rattle.std.specs.Option.{option_copied};
ghost use Rattle.cmis_spec.specs.Repository.{parent_in, entry_name, path_by, path_of};
ghost use Rattle.cmis_spec.specs.Access.{child_named, walk, at_path};

use crate::read::{read_at, reads};
use crate::tree::levels_up;
use cm_base::number::Oid;
use cm_base::object::Object;
use cm_base::text::Text;
use cm_state::open::ROOT;
use cm_state::state::State;
use std::alloc::{AllocError, Global};

/// The child of the folder that has this name, where the caller reads it. Takes no memory.
pub fn child_named<'a>(
    state: &'a State,
    user: &Text,
    folder: Oid,
    name: &Text,
) -> Option<&'a Object>
    ensures { option_copied result ≡ child_named state.now user.now folder name.now }
{
    match state.child_standing(folder, name) {
        Some(x) => { if reads(state, user, x) { Some(x) } else { None } }
        None => None,
    }
}

// The object at the end of the names, from another one on.
fn walk<'a>(state: &'a State, user: &Text, from: &'a Object, names: &[Text]) -> Option<&'a Object>
    ensures { option_copied result ≡ walk names.now state.now user.now from.now }
{
    match names {
        [] => Some(from),
        [name, rest @ ..] => {
            let child = child_named(state, user, from.id, name)?;
            walk(state, user, child, rest)
        }
    }
}

/// The object at the end of a path, each step among what the caller reads. Takes no memory.
pub fn at_path<'a>(state: &'a State, user: &Text, names: &[Text]) -> Option<&'a Object>
    ensures { option_copied result ≡ at_path state.now user.now names.now }
{
    let from = read_at(state, user, ROOT)?;
    walk(state, user, from, names)
}

// The text, and then a slash and a name.
fn with_step(mut text: String, name: &str) -> Result<String, AllocError>
    ensures { IfOk result (λ t. string_bytes t ≡ string_bytes text ++ codes "/" ++ name.now) }
{
    text.push_str("/")?;
    text.push_str(name)?;
    Ok(text)
}

// The steps from the root to the folder, each behind a slash.
fn path_by(alloc: Global, state: &State, levels: u64, folder: Oid) -> Result<String, AllocError>
    ensures { IfOk result (λ t. string_bytes t
        ≡ path_by levels (parent_in state.now.filed) (entry_name state.now) folder) }
{
    if levels == 0 || folder == ROOT {
        return Ok(String::new(alloc));
    }
    match state.parent(folder) {
        Some(above) => {
            let way = path_by(alloc, state, levels - 1, above)?;
            let text = with_step(way, state.entry_text(folder))?;
            Ok(text)
        }
        None => {
            let text = with_step(String::new(alloc), state.entry_text(folder))?;
            Ok(text)
        }
    }
}

/// The path of a folder: the names from the root on, each behind a slash; of the root, a slash.
pub fn path_of(alloc: Global, state: &State, folder: Oid) -> Result<Text, AllocError>
    ensures { IfOk result (λ t. t ≡ path_of state.now folder) }
{
    if folder == ROOT {
        return Text::from_str(alloc, "/");
    }
    let text = path_by(alloc, state, levels_up(), folder)?;
    Ok(Text::from_string(text))
}
