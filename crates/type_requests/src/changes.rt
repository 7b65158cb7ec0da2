//! What a request changes of a type that is there.
ghost use Rattle.std.specs.Prelude.{◌≡◌, ◌||◌, bytes_eq, false};
ghost use Rattle.std.specs.List.{list_any};
ghost use lib.Pointwise.{pointwise};
ghost use Rattle.cm_types.specs.Properties.{scalars_of, same_scalar};
ghost use Rattle.cm_types.specs.Changes.{changes, changes_text, changes_flag, same_kind, same_cardinality, same_updatability, same_content_allowed, same_choice, changes_limit, of_kind, if_kept, is_document, is_relationship, changes_prop_texts, changes_prop_flags, changes_prop_kind, changes_prop_values, changes_prop, changes_old_prop, changes_parent, changes_texts, changes_flags, changes_mutability, changes_own};
ghost use Rattle.cm_types.specs.declared.property.PropertyKind.TheVariants as kinds;

use crate::made::{is_document, is_relationship, limit_of, prop_of};
use crate::same::all_same;
use cm_base::text::{Text, Texts};
use cm_base::value::{Scalar, Scalars};
use cm_types::definition::{ContentAllowed, TypeDef, TypeMutability};
use cm_types::fault::scalars_of;
use cm_types::property::{Cardinality, Choices, PropDef, PropertyKind, Updatability};
use cm_types::request::{MutabilityRequest, PropRequest, TypeRequest};

fn changes_text(given: &Option<Text>, old: &Text) -> bool
    ensures { result ≡ changes_text given.now old.now }
{
    match given {
        Some(new) => !new.is(old),
        None => false,
    }
}

fn changes_flag(given: Option<bool>, old: bool) -> bool
    ensures { result ≡ changes_flag given old }
{
    match given {
        Some(new) => new != old,
        None => false,
    }
}

fn changes_flag_if(kept: bool, given: Option<bool>, old: bool) -> bool
    ensures { result ≡ changes_flag (if_kept kept given) old }
{
    kept && changes_flag(given, old)
}

fn same_updatability(a: Updatability, b: Updatability) -> bool
    ensures { result ≡ same_updatability a b }
{
    a == b
}

fn same_cardinality(a: Cardinality, b: Cardinality) -> bool
    ensures { result ≡ same_cardinality a b }
{
    a == b
}

fn same_kind(a: PropertyKind, b: PropertyKind) -> bool
    ensures { result ≡ same_kind a b }
{
    a == b
}

fn same_content_allowed(a: ContentAllowed, b: ContentAllowed) -> bool
    ensures { result ≡ same_content_allowed a b }
{
    a == b
}

fn changes_cardinality(given: Option<Cardinality>, old: Cardinality) -> bool
    ensures { result ≡ changes same_cardinality given old }
{
    match given {
        Some(new) => !same_cardinality(new, old),
        None => false,
    }
}

fn changes_updatability(given: Option<Updatability>, old: Updatability) -> bool
    ensures { result ≡ changes same_updatability given old }
{
    match given {
        Some(new) => !same_updatability(new, old),
        None => false,
    }
}

fn changes_content_allowed(kept: bool, given: Option<ContentAllowed>, old: ContentAllowed) -> bool
    ensures { result ≡ changes same_content_allowed (if_kept kept given) old }
{
    match given {
        Some(new) => kept && !same_content_allowed(new, old),
        None => false,
    }
}

fn changes_choices(given: &Option<Choices>, old: &Choices) -> bool
    ensures { result ≡ changes (pointwise same_choice) given.now old.now }
{
    match given {
        Some(new) => !all_same(new.as_slice(), old.as_slice()),
        None => false,
    }
}

fn changes_default(given: &Option<Scalars>, old: &[Scalar]) -> bool
    ensures { result ≡ changes (pointwise same_scalar) given.now old.now }
{
    match given {
        Some(new) => !all_same(new.as_slice(), old),
        None => false,
    }
}

fn changes_types(kept: bool, given: &Option<Texts>, old: &Texts) -> bool
    ensures { result ≡ changes (pointwise bytes_eq) (if_kept kept given.now) old.now }
{
    match given {
        Some(new) => kept && !all_same(new.as_slice(), old.as_slice()),
        None => false,
    }
}

fn changes_limit(given: Option<i64>, old: Option<i64>) -> bool
    ensures { result ≡ changes_limit given old }
{
    match given {
        Some(new) => match old {
            Some(old) => new != old,
            None => true,
        },
        None => false,
    }
}

fn changes_prop_texts(def: &PropDef, request: &PropRequest) -> bool
    ensures { result ≡ changes_prop_texts def.now request.now }
{
    changes_text(&request.local_name, &def.local_name)
        || changes_text(&request.local_namespace, &def.local_namespace)
        || changes_text(&request.display_name, &def.display_name)
        || changes_text(&request.query_name, &def.query_name)
        || changes_text(&request.description, &def.description)
}

fn changes_prop_flags(def: &PropDef, request: &PropRequest) -> bool
    ensures { result ≡ changes_prop_flags def.now request.now }
{
    changes_flag(request.required, def.required)
        || changes_flag(request.queryable, def.queryable)
        || changes_flag(request.orderable, def.orderable)
        || changes_flag(request.open_choice, def.open_choice)
}

fn changes_prop_kind(def: &PropDef, request: &PropRequest) -> bool
    ensures { result ≡ changes_prop_kind def.now request.now }
{
    !same_kind(request.kind, def.kind)
        || changes_cardinality(request.cardinality, def.cardinality)
        || changes_updatability(request.updatability, def.updatability)
}

fn changes_prop_limits(def: &PropDef, request: &PropRequest) -> bool
    ensures { result ≡ (changes_limit (of_kind kinds.String def.now.kind request.now.max_length) def.now.max_length
        || changes_limit (of_kind kinds.Integer def.now.kind request.now.min_value) def.now.min_value
        || changes_limit (of_kind kinds.Integer def.now.kind request.now.max_value) def.now.max_value) }
{
    changes_limit(
        limit_of(PropertyKind::String, def.kind, request.max_length),
        def.max_length,
    ) || changes_limit(
        limit_of(PropertyKind::Integer, def.kind, request.min_value),
        def.min_value,
    ) || changes_limit(
        limit_of(PropertyKind::Integer, def.kind, request.max_value),
        def.max_value,
    )
}

fn changes_prop_values(def: &PropDef, request: &PropRequest) -> bool
    ensures { result ≡ changes_prop_values def.now request.now }
{
    changes_choices(&request.choices, &def.choices)
        || changes_default(&request.default, scalars_of(&def.default))
        || changes_prop_limits(def, request)
}

fn changes_prop(def: &PropDef, request: &PropRequest) -> bool
    ensures { result ≡ changes_prop def.now request.now }
{
    changes_prop_kind(def, request)
        || changes_prop_texts(def, request)
        || changes_prop_flags(def, request)
        || changes_prop_values(def, request)
}

fn changes_old_prop(defs: &[PropDef], request: &PropRequest) -> bool
    ensures { result ≡ changes_old_prop defs.now request.now }
{
    match prop_of(defs, &request.id) {
        Some(def) => changes_prop(def, request),
        None => false,
    }
}

/// Whether a request changes a property definition that is there.
pub fn changes_old_props(defs: &[PropDef], requests: &[PropRequest]) -> bool
    ensures { result ≡ list_any (changes_old_prop defs.now) requests.now }
{
    requests.iter().any(|r| changes_old_prop(defs, r))
}

fn changes_mutability(old: TypeMutability, request: MutabilityRequest) -> bool
    ensures { result ≡ changes_mutability old request }
{
    changes_flag(request.create, old.create)
        || changes_flag(request.update, old.update)
        || changes_flag(request.delete, old.delete)
}

fn changes_flags(def: &TypeDef, request: &TypeRequest) -> bool
    ensures { result ≡ changes_flags def.now request.now }
{
    changes_flag(request.creatable, def.creatable)
        || changes_flag(request.fileable, def.fileable)
        || changes_flag(request.queryable, def.queryable)
        || changes_flag(request.fulltext_indexed, def.fulltext_indexed)
        || changes_flag(
            request.included_in_supertype_query,
            def.included_in_supertype_query,
        )
        || changes_flag(request.controllable_policy, def.controllable_policy)
        || changes_flag(request.controllable_acl, def.controllable_acl)
}

fn changes_parent(given: &Option<Text>, old: &Option<Text>) -> bool
    ensures { result ≡ changes_parent given.now old.now }
{
    match given {
        Some(new) => match old {
            Some(old) => !new.is(old),
            None => true,
        },
        None => false,
    }
}

fn changes_texts(def: &TypeDef, request: &TypeRequest) -> bool
    ensures { result ≡ changes_texts def.now request.now }
{
    !request.base.is_str(def.base.id())
        || changes_parent(&request.parent, &def.parent)
        || changes_text(&request.local_name, &def.local_name)
        || changes_text(&request.local_namespace, &def.local_namespace)
        || changes_text(&request.query_name, &def.query_name)
}

fn changes_own(def: &TypeDef, request: &TypeRequest) -> bool
    ensures { result ≡ changes_own def.now request.now }
{
    changes_flag_if(is_document(def.base), request.versionable, def.versionable)
        || changes_content_allowed(
            is_document(def.base),
            request.content_allowed,
            def.content_allowed,
        )
        || changes_types(
            is_relationship(def.base),
            &request.allowed_source_types,
            &def.allowed_source_types,
        )
        || changes_types(
            is_relationship(def.base),
            &request.allowed_target_types,
            &def.allowed_target_types,
        )
}

/// Whether a request changes an attribute of the type but the display name and the description.
pub fn changes_attributes(def: &TypeDef, request: &TypeRequest) -> bool
    ensures { result ≡ (changes_texts def.now request.now || changes_flags def.now request.now
        || changes_mutability def.now.mutability request.now.mutability || changes_own def.now request.now) }
{
    changes_texts(def, request)
        || changes_flags(def, request)
        || changes_mutability(def.mutability, request.mutability)
        || changes_own(def, request)
}
