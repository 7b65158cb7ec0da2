//! The name of a relationship to which none is given.
ghost use Rattle.std.specs.Prelude.{◌≡◌, ◌∷◌, None, IfOk};
ghost use Rattle.std.specs.Option.{option_copied};
ghost use Rattle.wr_relationship.specs.CreateRelationship.{first_given, plain_name, named_by};

use cm_base::copies::Copies;
use cm_base::items::Items;
use cm_base::text::Text;
use cm_types::given::{Given, Givens};
use create_parts::writes::{CreateRelationship, ObjectRequest};
use std::alloc::{AllocError, Global};
use wr_rules::properties::given_texts;

/// The first text that is given for a property. Takes no memory.
pub(crate) fn first_given<'a>(given: &'a [Given], property: &str) -> Option<&'a Text>
    ensures { option_copied result ≡ first_given given.now property.now }
{
    given_texts(given, property).first()
}

fn plain_name(alloc: Global) -> Result<Given, AllocError>
    ensures { IfOk result (λ g. g ≡ plain_name) }
{
    let id = Text::from_str(alloc, "cmis:name")?;
    let name = Text::from_str(alloc, "relationship")?;
    let mut texts = Items::new(alloc);
    texts.push(name)?;
    Ok(Given {
        id,
        texts,
        several: false,
    })
}

fn with_first(given: Vec<Given>, first: Given) -> Result<Vec<Given>, AllocError>
    ensures { IfOk result (λ all. all.items ≡ first ∷ given.items) }
{
    let mut given = given;
    given.insert(0, first)?;
    Ok(given)
}

// The properties, and the name `relationship` before them.
fn named(alloc: Global, given: &Givens) -> Result<Givens, AllocError>
    ensures { IfOk result (λ all. all ≡ plain_name ∷ given.now) }
{
    let copied = given.copied(alloc)?;
    let name = plain_name(alloc)?;
    let all = with_first(copied.into_vec(), name)?;
    Ok(Items::from_vec(all))
}

/// The call with the name `relationship`, where it gives none.
pub(crate) fn with_plain_name(
    alloc: Global,
    call: &CreateRelationship,
) -> Result<CreateRelationship, AllocError>
    ensures { IfOk result (λ c. c ≡ named_by None call.now) }
{
    let place = Copies::copied(&call.place, alloc)?;
    let properties = named(alloc, &call.object.properties)?;
    let policies = call.object.policies.copied(alloc)?;
    let remove = call.object.remove.copied(alloc)?;
    let add = call.object.add.copied(alloc)?;
    Ok(CreateRelationship {
        place,
        object: ObjectRequest {
            properties,
            policies,
            remove,
            add,
        },
        succinct: call.succinct,
    })
}
