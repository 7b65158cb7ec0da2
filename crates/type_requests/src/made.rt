//! What is made of a request, with the defaults of what is not given.
ghost use Rattle.std.specs.Prelude.{◌≡◌, [], ◌∷◌, ◌++◌, Option, IfOk, OnOk, unwrap_or, is_none};
ghost use Rattle.std.specs.Option.{option_copied};
ghost use Rattle.cm_types.specs.Properties.{def_of};
ghost use Rattle.cm_types.specs.Changes.{text_or, default_of, of_kind, is_single, cardinality_of, made_prop, made_props, made_mutability, made_type, is_document, is_relationship, is_secondary, if_kept, flag_or, new_props, changed_type};

use cm_base::copies::Copies;
use cm_base::items::Items;
use cm_base::text::{Text, Texts};
use cm_base::value::{Scalar, Value};
use cm_types::definition::{BaseType, ContentAllowed, TypeDef, TypeMutability};
use cm_types::property::{Cardinality, Choices, PropDef, PropDefs, PropertyKind, Updatability};
use cm_types::request::{MutabilityRequest, PropRequest, TypeRequest};
use cm_types::together::{Pair, Quad, all_four, both};
use std::alloc::{AllocError, Global};

fn text_or(alloc: Global, default: &Text, given: &Option<Text>) -> Result<Text, AllocError>
    ensures { IfOk result (λ t. t ≡ text_or default.now given.now) }
{
    match given {
        Some(text) => text.copied(alloc),
        None => default.copied(alloc),
    }
}

fn text_or_empty(alloc: Global, given: &Option<Text>) -> Result<Text, AllocError>
    ensures { IfOk result (λ t. t ≡ text_or [] given.now) }
{
    match given {
        Some(text) => text.copied(alloc),
        None => Ok(Text::empty(alloc)),
    }
}

/// The names that are asked for of a new definition.
fn names_made(
    alloc: Global,
    id: &Text,
    local_name: &Option<Text>,
    local_namespace: &Option<Text>,
    display_name: &Option<Text>,
    query_name: &Option<Text>,
) -> Result<Quad<Text>, AllocError>
    ensures { IfOk result (λ n. n.one ≡ text_or id.now local_name.now × n.two ≡ text_or [] local_namespace.now
        × n.three ≡ text_or id.now display_name.now × n.four ≡ text_or id.now query_name.now) }
{
    let one = text_or(alloc, id, local_name)?;
    let two = text_or_empty(alloc, local_namespace)?;
    let three = text_or(alloc, id, display_name)?;
    let four = text_or(alloc, id, query_name)?;
    Ok(Quad {
        one,
        two,
        three,
        four,
    })
}

/// The id and the description of a new definition.
fn marks_made(
    alloc: Global,
    id: &Text,
    description: &Option<Text>,
) -> Result<Pair<Text, Text>, AllocError>
    ensures { IfOk result (λ m. m.one ≡ id.now × m.two ≡ text_or [] description.now) }
{
    let one = id.copied(alloc)?;
    let two = text_or_empty(alloc, description)?;
    Ok(Pair { one, two })
}

/// The query name that is asked for; where none is given, the id.
pub fn query_name_of(request: &TypeRequest) -> &Text
    ensures { result.now ≡ text_or request.now.id request.now.query_name }
{
    match &request.query_name {
        Some(name) => name,
        None => &request.id,
    }
}

fn default_of(
    alloc: Global,
    cardinality: Cardinality,
    scalars: &[Scalar],
) -> Result<Value, AllocError>
    ensures { IfOk result (λ v. v ≡ default_of cardinality scalars.now) }
{
    match scalars {
        [] => Ok(Value::Unset),
        [scalar, ..] => match cardinality {
            Cardinality::Single => Ok(Value::One(scalar.copied(alloc)?)),
            Cardinality::Multi => {
                let all = Items::copy_of(alloc, scalars)?;
                Ok(Value::Many(all))
            }
        },
    }
}

/// A limit that is given, where it is one of the kind; others are not kept.
pub fn limit_of(of: PropertyKind, kind: PropertyKind, limit: Option<i64>) -> Option<i64>
    ensures { result ≡ of_kind of kind limit }
{
    match of {
        PropertyKind::String => match kind {
            PropertyKind::String => limit,
            _ => None,
        },
        PropertyKind::Integer => match kind {
            PropertyKind::Integer => limit,
            _ => None,
        },
        _ => None,
    }
}

/// Whether a property has one value.
pub fn is_single(cardinality: Cardinality) -> bool
    ensures { result ≡ is_single cardinality }
{
    match cardinality {
        Cardinality::Single => true,
        Cardinality::Multi => false,
    }
}

/// The cardinality that is asked for.
pub fn cardinality_of(request: &PropRequest) -> Cardinality
    ensures { result ≡ cardinality_of request.now }
{
    match request.cardinality {
        Some(cardinality) => cardinality,
        None => Cardinality::Single,
    }
}

fn choices_of(alloc: Global, request: &PropRequest) -> Result<Choices, AllocError>
    ensures { IfOk result (λ all. all ≡ unwrap_or request.now.choices []) }
{
    match &request.choices {
        Some(choices) => choices.copied(alloc),
        None => Ok(Items::new(alloc)),
    }
}

/// The scalars of the default value that is asked for, none of them where none is.
pub fn scalars_asked(request: &PropRequest) -> &[Scalar]
    ensures { result.now ≡ unwrap_or request.now.default [] }
{
    match &request.default {
        Some(scalars) => scalars.as_slice(),
        None => &[],
    }
}

/// The definition of a property.
pub fn prop_of<'a>(defs: &'a [PropDef], id: &Text) -> Option<&'a PropDef>
    ensures { option_copied result ≡ def_of defs.now id.now }
{
    defs.iter().find(|d| d.id.is(id))
}

/// Whether no definition has the id that is asked for.
pub fn is_new(defs: &[PropDef], request: &PropRequest) -> bool
    ensures { result ≡ is_none (def_of defs.now request.now.id) }
{
    prop_of(defs, &request.id).is_none()
}

fn add_new(
    alloc: Global,
    all: &mut PropDefs,
    defs: &[PropDef],
    request: &PropRequest,
) -> Result<(), AllocError>
    ensures { OnOk result (all.new ≡ all.old ++ made_props (new_props defs.now (request.now ∷ []))) }
{
    if is_new(defs, request) {
        let made = made_prop(alloc, request)?;
        all.push(made)
    } else {
        Ok(())
    }
}

/// The property definitions that requests make where these are none yet.
pub fn made_new(
    alloc: Global,
    defs: &[PropDef],
    requests: &[PropRequest],
) -> Result<PropDefs, AllocError>
    ensures { IfOk result (λ all. all ≡ made_props (new_props defs.now requests.now)) }
{
    let mut all = Items::new(alloc);
    for request in requests {
        add_new(alloc, &mut all, defs, request)?;
    }
    Ok(all)
}

/// The property definition that a request makes.
pub fn made_prop(alloc: Global, request: &PropRequest) -> Result<PropDef, AllocError>
    ensures { IfOk result (λ d. d ≡ made_prop request.now) }
{
    let cardinality = cardinality_of(request);
    let names = names_made(
        alloc,
        &request.id,
        &request.local_name,
        &request.local_namespace,
        &request.display_name,
        &request.query_name,
    )?;
    let marks = marks_made(alloc, &request.id, &request.description)?;
    let choices = choices_of(alloc, request)?;
    let default = default_of(alloc, cardinality, scalars_asked(request))?;
    let (local_name, local_namespace, display_name, query_name) = names.apart();
    let (id, description) = marks.apart();
    Ok(PropDef {
        id,
        local_name,
        local_namespace,
        display_name,
        query_name,
        description,
        kind: request.kind,
        cardinality,
        updatability: request.updatability.unwrap_or(Updatability::ReadWrite),
        required: request.required.unwrap_or(false),
        queryable: request.queryable.unwrap_or(true),
        orderable: request.orderable.unwrap_or(is_single(cardinality)),
        open_choice: request.open_choice.unwrap_or(true),
        choices,
        default,
        max_length: limit_of(PropertyKind::String, request.kind, request.max_length),
        min_value: limit_of(PropertyKind::Integer, request.kind, request.min_value),
        max_value: limit_of(PropertyKind::Integer, request.kind, request.max_value),
    })
}

/// The property definitions that the requests make.
pub fn made_all(alloc: Global, requests: &[PropRequest]) -> Result<PropDefs, AllocError>
    ensures { IfOk result (λ all. all ≡ made_props requests.now) }
{
    let mut all = Items::new(alloc);
    for request in requests {
        let def = made_prop(alloc, request)?;
        all.push(def)?;
    }
    Ok(all)
}

fn made_mutability(request: MutabilityRequest) -> TypeMutability
    ensures { result ≡ made_mutability request }
{
    TypeMutability {
        create: request.create.unwrap_or(true),
        update: request.update.unwrap_or(true),
        delete: request.delete.unwrap_or(true),
    }
}

/// Whether the base type is cmis:document.
pub fn is_document(base: BaseType) -> bool
    ensures { result ≡ is_document base }
{
    match base {
        BaseType::Document => true,
        _ => false,
    }
}

/// Whether the base type is cmis:relationship.
pub fn is_relationship(base: BaseType) -> bool
    ensures { result ≡ is_relationship base }
{
    match base {
        BaseType::Relationship => true,
        _ => false,
    }
}

/// Whether the base type is cmis:secondary.
pub fn is_secondary(base: BaseType) -> bool
    ensures { result ≡ is_secondary base }
{
    match base {
        BaseType::Secondary => true,
        _ => false,
    }
}

fn flag_if(kept: bool, given: Option<bool>, default: bool) -> bool
    ensures { result ≡ flag_or default (if_kept kept given) }
{
    if kept {
        given.unwrap_or(default)
    } else {
        default
    }
}

fn content_if(kept: bool, given: Option<ContentAllowed>, default: ContentAllowed) -> ContentAllowed
    ensures { result ≡ unwrap_or (if_kept kept given) default }
{
    if kept {
        given.unwrap_or(default)
    } else {
        default
    }
}

fn types_if(alloc: Global, kept: bool, given: &Option<Texts>) -> Result<Texts, AllocError>
    ensures { IfOk result (λ all. all ≡ unwrap_or (if_kept kept given.now) []) }
{
    match given {
        Some(types) => {
            if kept {
                types.copied(alloc)
            } else {
                Ok(Items::new(alloc))
            }
        }
        None => Ok(Items::new(alloc)),
    }
}

/// The type that a request makes below its parent, with these property definitions.
pub fn made_type(
    alloc: Global,
    parent: &TypeDef,
    request: &TypeRequest,
    properties: PropDefs,
) -> Result<TypeDef, AllocError>
    ensures { IfOk result (λ t. t ≡ record (made_type parent.now request.now) { properties = properties }) }
{
    let of_documents = is_document(parent.base);
    let of_relationships = is_relationship(parent.base);
    let names = names_made(
        alloc,
        &request.id,
        &request.local_name,
        &request.local_namespace,
        &request.display_name,
        &request.query_name,
    )?;
    let marks = marks_made(alloc, &request.id, &request.description)?;
    let above = parent.id.copied(alloc)?;
    let sources = types_if(alloc, of_relationships, &request.allowed_source_types)?;
    let targets = types_if(alloc, of_relationships, &request.allowed_target_types)?;
    let (local_name, local_namespace, display_name, query_name) = names.apart();
    let (id, description) = marks.apart();
    Ok(TypeDef {
        id,
        local_name,
        local_namespace,
        display_name,
        query_name,
        description,
        base: parent.base,
        parent: Some(above),
        creatable: request.creatable.unwrap_or(parent.creatable),
        fileable: parent.fileable,
        queryable: request
            .queryable
            .unwrap_or(is_secondary(parent.base) || parent.queryable),
        fulltext_indexed: false,
        included_in_supertype_query: request.included_in_supertype_query.unwrap_or(true),
        controllable_policy: request
            .controllable_policy
            .unwrap_or(parent.controllable_policy),
        controllable_acl: request.controllable_acl.unwrap_or(parent.controllable_acl),
        mutability: made_mutability(request.mutability),
        versionable: flag_if(of_documents, request.versionable, parent.versionable),
        content_allowed: content_if(
            of_documents,
            request.content_allowed,
            parent.content_allowed,
        ),
        allowed_source_types: sources,
        allowed_target_types: targets,
        properties,
    })
}

/// A type with the display name and the description that a request gives, and with these property definitions.
pub fn changed_type(
    alloc: Global,
    def: &TypeDef,
    request: &TypeRequest,
    properties: PropDefs,
) -> Result<TypeDef, AllocError>
    ensures { IfOk result (λ t. t ≡ record (changed_type def.now request.now) { properties = properties }) }
{
    let kept = all_four(
        &def.id,
        &def.local_name,
        &def.local_namespace,
        &def.query_name,
        alloc,
    )?;
    let display_name = text_or(alloc, &def.display_name, &request.display_name)?;
    let description = text_or(alloc, &def.description, &request.description)?;
    let parent = Copies::copied(&def.parent, alloc)?;
    let ends = both(&def.allowed_source_types, &def.allowed_target_types, alloc)?;
    let (id, local_name, local_namespace, query_name) = kept.apart();
    let (allowed_source_types, allowed_target_types) = ends.apart();
    Ok(TypeDef {
        id,
        local_name,
        local_namespace,
        display_name,
        query_name,
        description,
        base: def.base,
        parent,
        creatable: def.creatable,
        fileable: def.fileable,
        queryable: def.queryable,
        fulltext_indexed: def.fulltext_indexed,
        included_in_supertype_query: def.included_in_supertype_query,
        controllable_policy: def.controllable_policy,
        controllable_acl: def.controllable_acl,
        mutability: def.mutability,
        versionable: def.versionable,
        content_allowed: def.content_allowed,
        allowed_source_types,
        allowed_target_types,
        properties,
    })
}
