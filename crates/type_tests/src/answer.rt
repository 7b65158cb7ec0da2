//! Questions on the list of types.
use cm_base::fail::Fail;
use cm_base::items::Items;
use cm_base::text::{Text, Texts};
use cm_type_list::scan::is_child_type;
use cm_type_list::types::Types;
use cm_types::definition::TypeDef;
use std::alloc::{AllocError, Global};
use std::str;
use type_json::judge::read_type;
use type_show::read_back::type_text;
use type_show::show::type_value;

fn texts(alloc: Global, words: &str) -> Result<Texts, AllocError> {
    let mut all = Items::new(alloc);
    for word in words.split_whitespace() {
        all.push(Text::from_str(alloc, word)?)?;
    }
    Ok(all)
}

// What a text is read as.
fn read(alloc: Global, text: &str) -> &'static str {
    match read_type(alloc, text) {
        Ok(_) => "read",
        Err(Fail::Refused(cause)) => cause.text(),
        Err(Fail::Memory) => "memory is wanted",
    }
}

fn as_text(alloc: Global, bytes: &[u8]) -> Result<String, AllocError> {
    match str::from_utf8(bytes) {
        Ok(text) => String::from_str(alloc, text),
        Err(_) => String::from_str(alloc, "bytes that are no text"),
    }
}

// The text of a type with its properties.
fn shown(alloc: Global, types: &Types, id: &Text) -> Result<String, AllocError> {
    match types.find(id) {
        Some(def) => as_text(alloc, &type_text(alloc, def)?),
        None => String::from_str(alloc, "none"),
    }
}

// The text of a type without its properties.
fn brief(alloc: Global, types: &Types, id: &Text) -> Result<String, AllocError> {
    match types.find(id) {
        Some(def) => {
            let value = type_value(alloc, def, false)?;
            as_text(alloc, &value.to_vec(alloc)?)
        }
        None => String::from_str(alloc, "none"),
    }
}

// The ids in their order, with blanks between them.
fn ids(alloc: Global, defs: &[&TypeDef]) -> Result<String, AllocError> {
    let mut all = String::new(alloc);
    for def in defs {
        if !all.is_empty() {
            all.push_str(" ")?;
        }
        all.push_str(def.id.as_str())?;
    }
    Ok(all)
}

fn all_ids(alloc: Global, types: &Types) -> Result<String, AllocError> {
    let defs = types.all(alloc)?;
    if defs.is_empty() {
        String::from_str(alloc, "none")
    } else {
        ids(alloc, &defs)
    }
}

// The number of properties of an object of this type, and the last of them.
fn properties(alloc: Global, types: &Types, id: &Text) -> Result<String, AllocError> {
    let defs = types.props_of(alloc, id, &[])?;
    let count = defs.len();
    match defs.last() {
        Some(def) => {
            let id = def.id.as_str();
            let required = def.required;
            let orderable = def.orderable;
            format!(in alloc; "{count} {id} required {required} orderable {orderable}")
        }
        None => String::from_str(alloc, "0"),
    }
}

fn is_child(types: &Types, id: &Text, parents: &[Text]) -> bool {
    match (types.find(id), parents.first()) {
        (Some(def), Some(parent)) => is_child_type(parent, def),
        _ => false,
    }
}

fn is_below(types: &Types, id: &Text, above: &[Text]) -> bool {
    match above.first() {
        Some(first) => types.is_below(id, first),
        None => false,
    }
}

fn word_of(alloc: Global, is_so: bool) -> Result<String, AllocError> {
    String::from_str(alloc, if is_so { "yes" } else { "no" })
}

// What is asked of a type, with the types behind it.
fn of_type(
    alloc: Global,
    types: &Types,
    word: &str,
    id: &Text,
    others: &[Text],
) -> Result<String, AllocError> {
    match word {
        "show" => shown(alloc, types, id),
        "brief" => brief(alloc, types, id),
        "properties" => properties(alloc, types, id),
        "below" => word_of(alloc, is_below(types, id, others)),
        "under" => word_of(alloc, types.is_below_any(id, others)),
        "child" => word_of(alloc, is_child(types, id, others)),
        _ => ids(alloc, &types.types_of(alloc, id, others)?),
    }
}

/// The answer to a question: of a text whether it asks for a type, the ids of all types, or what a type is.
pub fn answer(alloc: Global, types: &Types, word: &str, text: &str) -> Result<String, AllocError> {
    match word {
        "read" => String::from_str(alloc, read(alloc, text)),
        "types" => all_ids(alloc, types),
        _ => match texts(alloc, text)?.as_slice() {
            [id, others @ ..] => of_type(alloc, types, word, id, others),
            [] => String::from_str(alloc, "what is asked?"),
        },
    }
}
