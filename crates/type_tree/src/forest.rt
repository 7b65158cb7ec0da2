//! The types by their parents.
ghost use Rattle.std.specs.Prelude.{◌≡◌, ℕ, List, ◌++◌, ◌∷◌, [], filter, map, bytes_eq, string_bytes, if◌then◌else◌, IfOk, OnOk};
ghost use Rattle.std.specs.Option.{option_copied, option_map_or};
ghost use Rattle.std.specs.BTreeMap.{get_by_text};
ghost use Rattle.cm_map.specs.Parts.{pointee};
ghost use Rattle.cm_types.specs.Types.{is_child_type, subtypes};
ghost use Rattle.type_tree.specs.Groups.{HasGroups, group_in};

use cm_base::text::Text;
use cm_types::definition::TypeDef;
use std::alloc::{AllocError, Global};
use std::collections::BTreeMap;
use std::marker::Model;

fn push_at<'a>(
    groups: &mut BTreeMap<String, Vec<&'a TypeDef>>,
    name: String,
    def: &'a TypeDef,
) -> Result<(), AllocError>
    ensures { OnOk result ((id : List ℕ) → option_map_or (λ g. g.items) (get_by_text groups.new id) []
        ≡ option_map_or (λ g. g.items) (get_by_text groups.old id) []
        ++ (if bytes_eq id (string_bytes name) then def.entry ∷ [] else [])) }
{
    groups.entry(name)?.or_default().push(def)?;
    Ok(())
}

// Puts a type at its parent's id.
fn note<'a>(
    alloc: Global,
    groups: &mut BTreeMap<String, Vec<&'a TypeDef>>,
    def: &'a TypeDef,
) -> Result<(), AllocError>
    ensures { OnOk result ((id : List ℕ) → group_in (get_by_text groups.new id)
        ≡ group_in (get_by_text groups.old id) ++ filter (is_child_type id) (def.now ∷ [])) }
{
    match &def.parent {
        None => Ok(()),
        Some(parent) => {
            let name = String::from_str(alloc, parent.as_str())?;
            push_at(groups, name, def)?;
            Ok(())
        }
    }
}

fn groups_of<'a>(
    alloc: Global,
    types: &[&'a TypeDef],
) -> Result<BTreeMap<String, Vec<&'a TypeDef>>, AllocError>
    ensures { IfOk result (λ groups. HasGroups (get_by_text groups) (map pointee types.now)) }
{
    let mut groups = BTreeMap::new(alloc);
    for def in types {
        note(alloc, &mut groups, *def)?;
    }
    Ok(groups)
}

/// Types, seen as their list. The subtypes of one are found without going through all.
#[derive(Drop)]
pub(crate) struct Forest<'a> {
    types: Vec<&'a TypeDef>,
    // The types of each parent.
    groups: BTreeMap<String, Vec<&'a TypeDef>>,
}

impl<'a> Model for Forest<'a> {
    ghost use Rattle.std.specs.Prelude.{List, map};
    ghost use Rattle.std.specs.BTreeMap.{get_by_text};
    ghost use Rattle.cm_map.specs.Parts.{pointee};
    ghost use Rattle.cm_types.specs.declared.definition.TypeDef.{TypeDef};
    ghost use Rattle.type_tree.specs.Groups.{HasGroups};

    ghost Value = { List TypeDef };

    ghost view = { λ s. map pointee s.types.items };

    ghost invariant = { λ s. HasGroups (get_by_text s.groups) (map pointee s.types.items) };
}

impl<'a> Forest<'a> {
    /// These types.
    pub(crate) fn of(alloc: Global, types: Vec<&'a TypeDef>) -> Result<Forest<'a>, AllocError>
        ensures { IfOk result (λ forest. forest ≡ map pointee types.entry.items) }
    {
        let groups = groups_of(alloc, &types)?;
        Ok(Forest { types, groups })
    }

    /// The types, in their order.
    pub(crate) fn types(&self) -> &[&'a TypeDef]
        ensures { map pointee result.now ≡ self.now }
    {
        &self.types
    }

    /// The direct subtypes of a type, in their order, where it has any.
    pub(crate) fn subtypes(&self, id: &Text) -> Option<&Vec<&'a TypeDef>>
        ensures { group_in (option_copied result) ≡ subtypes self.now id.now }
    {
        let _types = &self.types;
        self.groups.get(id.as_str())
    }
}
