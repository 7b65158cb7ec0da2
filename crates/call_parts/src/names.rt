//! Lists of names.
ghost use Rattle.std.specs.Prelude.{◌≡◌, ◌++◌, ◌∷◌, [], List, IfOk, bytes_eq};
ghost use Rattle.std.specs.List.{list_any};
ghost use Rattle.std.specs.BTreeMap.{get_by_text};
ghost use Rattle.call_parts.specs.Names.{FindsNames};

use cm_base::text::{Text, Texts};
use std::alloc::{AllocError, Global};
use std::collections::BTreeMap;
use std::marker::Model;

/// Names in their order. Whether one is among them is found without going through all of them.
#[derive(Drop)]
pub struct Names {
    list: Texts,
    index: BTreeMap<String, ()>,
}

impl Model for Names {
    ghost use Rattle.std.specs.Prelude.{List, ℕ};
    ghost use Rattle.std.specs.BTreeMap.{get_by_text};
    ghost use Rattle.call_parts.specs.Names.{FindsNames};

    ghost Value = { List (List ℕ) };

    ghost view = { λ n. n.list };

    ghost invariant = { λ n. FindsNames (get_by_text n.index) n.list };
}

// Notes that a name is there.
fn note(
    alloc: Global,
    index: &mut BTreeMap<String, ()>,
    done: &[Text],
    name: &Text,
) -> Result<(), AllocError>
    requires { FindsNames (get_by_text index.old) done.now }
    ensures { IfOk result (λ _. FindsNames (get_by_text index.new) (done.now ++ name.now ∷ [])) }
{
    let key = String::from_str(alloc, name.as_str())?;
    index.insert(key, ())?;
    Ok(())
}

fn index_of(alloc: Global, list: &[Text]) -> Result<BTreeMap<String, ()>, AllocError>
    ensures { IfOk result (λ m. FindsNames (get_by_text m) list.now) }
{
    let mut index = BTreeMap::new(alloc);
    for i in 0..list.len() {
        note(alloc, &mut index, &list[..i], &list[i])?;
    }
    Ok(index)
}

impl Names {
    /// These names.
    pub fn from_texts(alloc: Global, list: Texts) -> Result<Names, AllocError>
        ensures { IfOk result (λ names. names ≡ list) }
    {
        let index = index_of(alloc, list.as_slice())?;
        Ok(Names { list, index })
    }

    /// The names in their order.
    pub fn as_slice(&self) -> &[Text]
        ensures { result.now ≡ self.now }
    {
        self.list.as_slice()
    }

    /// Whether a name is among them. Takes no memory.
    pub fn has(&self, name: &Text) -> bool
        ensures { result ≡ list_any (bytes_eq name.now) self.now }
    {
        self.index.get(name.as_str()).is_some()
    }
}
