//! The list of types, as a value that keeps its older states.
ghost use Rattle.std.specs.Prelude.{◌≡◌, ℕ, List, [], ◌∷◌, ◌++◌, OnOk, ◌≤◌, length, IfOk, bytes_eq, map, reverse, fold};
ghost use Rattle.std.specs.Option.{option_copied};
ghost use Rattle.std.specs.List.{list_any, flat_map};
ghost use Rattle.cm_types.specs.Types.{type_in, chain_of, is_below, is_below_any, longest_chain, types_of, props_of};
ghost use denote.Ref.{Bor};
ghost use Rattle.cm_map.specs.Parts.{pointee};
ghost use Rattle.cm_type_list.specs.Firsts.{with_first};
ghost use Rattle.type_requests.specs.Keys.{IsKeyed, values_of};

use crate::scan::all_of;
use cm_base::copies::Copies;
use cm_base::text::Text;
use cm_map::map::Map;
use cm_types::definition::TypeDef;
use cm_types::property::PropDef;
use std::alloc::{AllocError, Global};
use std::marker::Model;

#[tactic(auto, unfolding(cm_types::specs::Types::longest_chain))]
pub(crate) fn longest_chain() -> u64
    ensures { result ≡ longest_chain }
{
    16
}

fn has_type(types: &[&TypeDef], id: &Text) -> bool
    ensures { result ≡ list_any (λ (t : Bor TypeDef). bytes_eq t.now.id id.now) types.now }
{
    types.iter().any(|t| t.id.is(id))
}

fn add_first<'a>(types: &mut Vec<&'a TypeDef>, def: &'a TypeDef) -> Result<(), AllocError>
    ensures { OnOk result (map pointee types.new.items ≡ with_first (map pointee types.old.items) def.now) }
{
    if has_type(types, &def.id) {
        Ok(())
    } else {
        types.push(def)?;
        Ok(())
    }
}

fn add_props<'a>(all: &mut Vec<&'a PropDef>, defs: &'a [PropDef]) -> Result<(), AllocError>
    ensures { OnOk result (map pointee all.new.items ≡ map pointee all.old.items ++ defs.now) }
{
    for def in defs {
        all.push(def)?;
    }
    Ok(())
}

// The number of properties that types define, or more.
fn props_len(types: &[&TypeDef]) -> usize {
    let mut n: usize = 0;
    for def in types {
        n = n.saturating_add(def.properties.len());
    }
    n
}

fn props_in<'a>(alloc: Global, types: &[&'a TypeDef]) -> Result<Vec<&'a PropDef>, AllocError>
    ensures { IfOk result (λ all. map pointee all.items ≡ flat_map (λ t. t.properties) (map pointee types.now)) }
{
    let mut all = Vec::with_capacity(alloc, props_len(types))?;
    for def in types {
        add_props(&mut all, def.properties.as_slice())?;
    }
    Ok(all)
}

/// The definitions of types in byte order of their ids.
///
/// Each change takes `&self` and makes a new list that shares the definitions with the old one, so both stand.
#[derive(Drop)]
pub struct Types {
    pub(crate) map: Map<Text, TypeDef>,
}

impl Model for Types {
    ghost use Rattle.std.specs.Prelude.{ℕ, List};
    ghost use Rattle.cm_types.specs.declared.definition.TypeDef.{TypeDef};
    ghost use Rattle.type_requests.specs.Keys.{IsKeyed, values_of};

    ghost Value = { List TypeDef };

    ghost view = { λ s. values_of s.map };

    ghost invariant = { λ s. IsKeyed (λ t. t.id) s.map };
}

impl Types {
    /// The empty list.
    pub fn empty(alloc: Global) -> Types
        ensures { result ≡ [] }
    {
        Types {
            map: Map::empty(alloc),
        }
    }

    /// The definition of a type, or none. It takes no memory, and compares about as many ids as the length has binary digits.
    pub fn find(&self, id: &Text) -> Option<&TypeDef>
        ensures { option_copied result ≡ type_in self.now id.now }
    {
        self.map.get(id)
    }

    fn is_below_in(&self, levels: u64, id: &Text, above: &Text) -> bool
        ensures { result ≡ list_any (λ t. bytes_eq t.id above.now) (chain_of levels self.now id.now) }
    {
        if levels == 0 {
            return false;
        }
        match self.find(id) {
            None => false,
            Some(def) => {
                if def.id.is(above) {
                    return true;
                }
                match &def.parent {
                    Some(parent) => self.is_below_in(levels - 1, parent, above),
                    None => false,
                }
            }
        }
    }

    /// Whether the other type is this one, or one of its ancestors. It takes no memory.
    pub fn is_below(&self, id: &Text, above: &Text) -> bool
        ensures { result ≡ is_below self.now id.now above.now }
    {
        self.is_below_in(longest_chain(), id, above)
    }

    /// Whether one of the given types is this one, or one of its ancestors. It takes no memory.
    pub fn is_below_any(&self, id: &Text, above: &[Text]) -> bool
        ensures { result ≡ is_below_any self.now id.now above.now }
    {
        above.iter().any(|a| self.is_below(id, a))
    }

    // Adds those of a type's chain of at most so many types, base first, that are not there yet.
    fn add_line<'a>(
        &'a self,
        types: &mut Vec<&'a TypeDef>,
        levels: u64,
        id: &Text,
    ) -> Result<(), AllocError>
        ensures { OnOk result (map pointee types.new.items
            ≡ fold with_first (map pointee types.old.items) (reverse (chain_of levels self.now id.now))) }
    {
        if levels == 0 {
            return Ok(());
        }
        match self.find(id) {
            None => Ok(()),
            Some(def) => {
                if let Some(parent) = &def.parent {
                    self.add_line(types, levels - 1, parent)?;
                }
                add_first(types, def)
            }
        }
    }

    /// The types whose properties an object has: its type's chain, then those of its secondary types, each base first, and each
    /// type once.
    pub fn types_of(
        &self,
        alloc: Global,
        id: &Text,
        secondaries: &[Text],
    ) -> Result<Vec<&TypeDef>, AllocError>
        ensures { IfOk result (λ all. map pointee all.items ≡ types_of self.now id.now secondaries.now) }
    {
        let mut types = Vec::new(alloc);
        self.add_line(&mut types, longest_chain(), id)?;
        for other in secondaries {
            self.add_line(&mut types, longest_chain(), other)?;
        }
        Ok(types)
    }

    /// The definitions of an object's properties. None of them is copied.
    pub fn props_of(
        &self,
        alloc: Global,
        id: &Text,
        secondaries: &[Text],
    ) -> Result<Vec<&PropDef>, AllocError>
        ensures { IfOk result (λ all. map pointee all.items ≡ props_of self.now id.now secondaries.now) }
    {
        let types = self.types_of(alloc, id, secondaries)?;
        let all = props_in(alloc, &types)?;
        Ok(all)
    }

    /// All types in order.
    pub fn all(&self, alloc: Global) -> Result<Vec<&TypeDef>, AllocError>
        ensures { IfOk result (λ all. map pointee all.items ≡ self.now) }
    {
        let all = all_of(alloc, &self.map)?;
        Ok(all)
    }

    /// The number of types of a type's chain, at most so many.
    pub(crate) fn chain_len(&self, levels: u64, id: &Text) -> u64
        ensures len { result ≡ length (chain_of levels self.now id.now) }
        ensures most { result ≤ levels }
    {
        if levels == 0 {
            return 0;
        }
        match self.find(id) {
            None => 0,
            Some(def) => match &def.parent {
                Some(parent) => self.chain_len(levels - 1, parent) + 1,
                None => 1,
            },
        }
    }
}

impl Copies for Types {
    fn copied(&self, alloc: Global) -> Result<Types, AllocError> {
        let map = self.map.share(alloc)?;
        Ok(Types { map })
    }
}
