//! Changes of the list of types.
use cm_base::copies::Copies;
use cm_base::fail::Fail;
use cm_base::items::Items;
use cm_base::text::Text;
use cm_basetypes::base_types::base_types;
use cm_type_list::types::Types;
use cm_types::definition::TypeDefs;
use std::alloc::{AllocError, Global};
use type_json::judge::read_type;

const CHANGES: [&str; 6] = ["base", "copy", "make", "change", "remove", "list"];

/// Whether the word is one of a change.
pub fn is_change(word: &str) -> bool {
    CHANGES.iter().any(|it| *it == word)
}

// The list with the type that the text asks for.
fn made(alloc: Global, types: &Types, text: &str) -> Result<Types, Fail> {
    let request = read_type(alloc, text)?;
    let more = types.with_type(alloc, &request)?;
    Ok(more)
}

// The list with the type that the text changes.
fn edited(alloc: Global, types: &Types, text: &str) -> Result<Types, Fail> {
    let request = read_type(alloc, text)?;
    let edited = types.with_change(alloc, &request)?;
    Ok(edited)
}

fn removed(alloc: Global, types: &Types, id: &str) -> Result<Types, Fail> {
    let id = Text::from_str(alloc, id)?;
    let fewer = types.without(alloc, &id)?;
    Ok(fewer)
}

// Puts the definition of a type behind the others, with a description of its own.
fn add(
    alloc: Global,
    defs: &mut TypeDefs,
    types: &Types,
    id: &str,
    description: &str,
) -> Result<(), AllocError> {
    let id = Text::from_str(alloc, id)?;
    if let Some(def) = types.find(&id) {
        let mut copy = def.copied(alloc)?;
        copy.description = Text::from_str(alloc, description)?;
        defs.push(copy)?;
    }
    Ok(())
}

// The list of the definitions that are named as ID=DESCRIPTION, in this order.
fn listed(alloc: Global, types: &Types, text: &str) -> Result<Types, Fail> {
    let mut defs = Items::new(alloc);
    for pair in text.split_whitespace() {
        if let Some((id, description)) = pair.split_once('=') {
            add(alloc, &mut defs, types, id, description)?;
        }
    }
    let list = Types::from_defs(alloc, &defs)?;
    Ok(list)
}

fn anew(alloc: Global) -> Result<Types, Fail> {
    let types = base_types(alloc)?;
    Ok(types)
}

fn copied(alloc: Global, types: &Types) -> Result<Types, Fail> {
    let copy = types.copied(alloc)?;
    Ok(copy)
}

fn changed(alloc: Global, types: &Types, word: &str, text: &str) -> Result<Types, Fail> {
    match word {
        "base" => anew(alloc),
        "copy" => copied(alloc, types),
        "make" => made(alloc, types, text),
        "change" => edited(alloc, types, text),
        "remove" => removed(alloc, types, text),
        _ => listed(alloc, types, text),
    }
}

/// The list after a change, and what came of it.
pub fn next(
    alloc: Global,
    types: Types,
    word: &str,
    text: &str,
) -> Result<(Types, &'static str), AllocError> {
    match changed(alloc, &types, word, text) {
        Ok(more) => Ok((more, "done")),
        Err(fail) => match fail {
            Fail::Refused(cause) => Ok((types, cause.text())),
            Fail::Memory => Err(AllocError),
        },
    }
}
