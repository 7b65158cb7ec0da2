//! What scripts ask for, and what is printed of it.
ghost use Rattle.std.specs.Prelude.{◌≡◌, map, IfOk};
ghost use Rattle.cmis_runs.specs.Scripting.{child_name, folder_in_root, folder_properties, given, root_children};

use call_parts::place::Place;
use call_parts::readings::{PropertyFilter, ReadChildren};
use call_parts::writes::CreateFolder;
use cm_base::copies::Copies;
use cm_base::items::Items;
use cm_base::text::{Text, Texts};
use cm_types::given::{Given, Givens};
use include_parts::readings::{IncludeRelationships, Includes, ShowChildren};
use include_parts::replies::IncludedMember;
use rendition_parts::filter::RenditionFilter;
use std::alloc::{AllocError, Global};

/// How many children are asked for at most.
const MOST_CHILDREN: u64 = 1000;

fn given(alloc: Global, id: &str, text: Text) -> Result<Given, AllocError>
    ensures { IfOk result (λ g. g ≡ given id.now text) }
{
    let id = Text::from_str(alloc, id)?;
    let mut texts = Items::new(alloc);
    texts.push(text)?;
    Ok(Given {
        id,
        texts,
        several: false,
    })
}

/// The properties of a folder of this name.
pub fn folder_properties(alloc: Global, name: Text) -> Result<Givens, AllocError>
    ensures { IfOk result (λ all. all ≡ folder_properties name) }
{
    let name = given(alloc, "cmis:name", name)?;
    let folder = Text::from_str(alloc, "cmis:folder")?;
    let type_id = given(alloc, "cmis:objectTypeId", folder)?;
    let mut all = Items::new(alloc);
    all.push(name)?;
    all.push(type_id)?;
    Ok(all)
}

/// The call that makes a folder with these properties in the root. It takes no memory.
pub fn folder_in_root(alloc: Global, properties: Givens) -> CreateFolder
    ensures { result ≡ folder_in_root properties }
{
    CreateFolder {
        place: Place::Path(Items::new(alloc)),
        properties,
        policies: Items::new(alloc),
        remove: Items::new(alloc),
        add: Items::new(alloc),
        succinct: true,
    }
}

/// The children of the root, at most 1000 of them, with their names. It takes no memory.
pub fn root_children(alloc: Global) -> ShowChildren
    ensures { result ≡ root_children }
{
    ShowChildren {
        children: ReadChildren {
            place: Place::Path(Items::new(alloc)),
            filter: PropertyFilter::All,
            max_items: MOST_CHILDREN,
            skip_count: 0,
            succinct: true,
        },
        order: Items::new(alloc),
        segments: true,
        includes: Includes {
            actions: false,
            relationships: IncludeRelationships::Nothing,
            renditions: RenditionFilter::None,
            policy_ids: false,
            acl: false,
        },
    }
}

fn child_name(alloc: Global, member: &IncludedMember) -> Result<Text, AllocError>
    ensures { IfOk result (λ name. name ≡ child_name member.now) }
{
    match &member.segment {
        Some(name) => name.copied(alloc),
        None => Ok(Text::empty(alloc)),
    }
}

/// The names of the children that are shown.
pub fn child_names(alloc: Global, members: &[IncludedMember]) -> Result<Texts, AllocError>
    ensures { IfOk result (λ names. names ≡ map child_name members.now) }
{
    let mut names = Texts::new(alloc);
    for member in members {
        let name = child_name(alloc, member)?;
        names.push(name)?;
    }
    Ok(names)
}
