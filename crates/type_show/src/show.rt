//! Type definitions as JSON.
ghost use Rattle.std.specs.Prelude.{◌≡◌, ◌∷◌, [], IfOk, OnOk, fold, map};
ghost use Rattle.serde_json.specs.Data.{string};
ghost use Rattle.cm_types.specs.Properties.{scalars_of};
ghost use Rattle.json_text.specs.Shown.{data_of, fields_of, listed};
ghost use Rattle.json_text.specs.Build.{with_field};
ghost use Rattle.type_show.specs.Showing.{text_field, flag_field, choice_data, limit_data, prop_names, prop_words, prop_flags, prop_values, bound_fields, limit_fields, prop_data, props_data, mutability_data, type_names, type_flags, type_values, parent_fields, document_fields, relationship_fields, base_fields, props_fields, type_data};

use cm_base::text::Text;
use cm_types::definition::{BaseType, TypeDef, TypeMutability};
use cm_types::fault::scalars_of;
use cm_types::property::{Choice, PropDef, PropertyKind};
use json_text::tree::{Elements, Fields, Json};
use json_text::values::{scalar_json, scalars_json};
use std::alloc::{AllocError, Global};
use type_keys::word::Worded;

fn put_texts(alloc: Global, fields: &mut Fields, texts: &[(&str, &Text)]) -> Result<(), AllocError>
    ensures { OnOk result (fields_of fields.new ≡ fold with_field (fields_of fields.old) (map text_field texts.now)) }
{
    for text in texts {
        fields.put(alloc, text.0, Json::text(alloc, text.1.as_str())?)?;
    }
    Ok(())
}

fn put_flags(alloc: Global, fields: &mut Fields, flags: &[(&str, bool)]) -> Result<(), AllocError>
    ensures { OnOk result (fields_of fields.new ≡ fold with_field (fields_of fields.old) (map flag_field flags.now)) }
{
    for flag in flags {
        fields.put(alloc, flag.0, Json::flag(flag.1))?;
    }
    Ok(())
}

fn choice_json(alloc: Global, choice: &Choice) -> Result<Json, AllocError>
    ensures { IfOk result (λ j. data_of j ≡ choice_data choice.now) }
{
    let mut fields = Fields::new(alloc);
    fields.put(
        alloc,
        "displayName",
        Json::text(alloc, choice.display_name.as_str())?,
    )?;
    fields.put(alloc, "value", scalar_json(alloc, &choice.value)?)?;
    Ok(Json::object(fields))
}

fn choices_json(alloc: Global, choices: &[Choice]) -> Result<Elements, AllocError>
    ensures { IfOk result (λ e. listed e ≡ map choice_data choices.now) }
{
    let mut elements = Elements::new(alloc);
    for choice in choices {
        elements.push(choice_json(alloc, choice)?)?;
    }
    Ok(elements)
}

fn texts_json(alloc: Global, texts: &[Text]) -> Result<Elements, AllocError>
    ensures { IfOk result (λ e. listed e ≡ map string texts.now) }
{
    let mut elements = Elements::new(alloc);
    for text in texts {
        elements.push(Json::text(alloc, text.as_str())?)?;
    }
    Ok(elements)
}

fn limit_json(limit: Option<i64>) -> Json
    ensures { data_of result ≡ limit_data limit }
{
    match limit {
        Some(number) => Json::whole(number),
        None => Json::null(),
    }
}

fn put_prop_names(alloc: Global, fields: &mut Fields, def: &PropDef) -> Result<(), AllocError>
    ensures { OnOk result (fields_of fields.new ≡ fold with_field (fields_of fields.old) (prop_names def.now)) }
{
    let texts = [
        ("id", &def.id),
        ("localName", &def.local_name),
        ("localNamespace", &def.local_namespace),
        ("displayName", &def.display_name),
        ("queryName", &def.query_name),
        ("description", &def.description),
    ];
    put_texts(alloc, fields, &texts)
}

fn put_prop_words(alloc: Global, fields: &mut Fields, def: &PropDef) -> Result<(), AllocError>
    ensures { OnOk result (fields_of fields.new ≡ fold with_field (fields_of fields.old) (prop_words def.now)) }
{
    fields.put(alloc, "propertyType", Json::text(alloc, def.kind.word())?)?;
    fields.put(
        alloc,
        "cardinality",
        Json::text(alloc, def.cardinality.word())?,
    )?;
    fields.put(
        alloc,
        "updatability",
        Json::text(alloc, def.updatability.word())?,
    )?;
    Ok(())
}

fn put_prop_flags(alloc: Global, fields: &mut Fields, def: &PropDef) -> Result<(), AllocError>
    ensures { OnOk result (fields_of fields.new ≡ fold with_field (fields_of fields.old) (prop_flags def.now)) }
{
    let flags = [
        ("inherited", false),
        ("required", def.required),
        ("queryable", def.queryable),
        ("orderable", def.orderable),
        ("openChoice", def.open_choice),
    ];
    put_flags(alloc, fields, &flags)
}

fn put_prop_values(alloc: Global, fields: &mut Fields, def: &PropDef) -> Result<(), AllocError>
    ensures { OnOk result (fields_of fields.new ≡ fold with_field (fields_of fields.old) (prop_values def.now)) }
{
    let choices = choices_json(alloc, def.choices.as_slice())?;
    let default = scalars_json(alloc, scalars_of(&def.default))?;
    fields.put(alloc, "choice", Json::array(choices))?;
    fields.put(alloc, "defaultValue", Json::array(default))?;
    Ok(())
}

fn put_bounds(alloc: Global, fields: &mut Fields, def: &PropDef) -> Result<(), AllocError>
    ensures { OnOk result (fields_of fields.new ≡ fold with_field (fields_of fields.old) (bound_fields def.now)) }
{
    fields.put(alloc, "minValue", limit_json(def.min_value))?;
    fields.put(alloc, "maxValue", limit_json(def.max_value))?;
    Ok(())
}

fn put_limits(alloc: Global, fields: &mut Fields, def: &PropDef) -> Result<(), AllocError>
    ensures { OnOk result (fields_of fields.new
        ≡ fold with_field (fields_of fields.old) (limit_fields def.now.kind def.now)) }
{
    match def.kind {
        PropertyKind::String => fields.put(alloc, "maxLength", limit_json(def.max_length)),
        PropertyKind::Integer => put_bounds(alloc, fields, def),
        PropertyKind::Datetime => fields.put(alloc, "resolution", Json::text(alloc, "time")?),
        _ => Ok(()),
    }
}

#[tactic(auto, unfolding(crate::specs::Showing::prop_data))]
fn prop_json(alloc: Global, def: &PropDef) -> Result<Json, AllocError>
    ensures { IfOk result (λ j. data_of j ≡ prop_data def.now) }
{
    let mut fields = Fields::new(alloc);
    put_prop_names(alloc, &mut fields, def)?;
    put_prop_words(alloc, &mut fields, def)?;
    put_prop_flags(alloc, &mut fields, def)?;
    put_prop_values(alloc, &mut fields, def)?;
    put_limits(alloc, &mut fields, def)?;
    Ok(Json::object(fields))
}

fn props_json(alloc: Global, defs: &[PropDef]) -> Result<Json, AllocError>
    ensures { IfOk result (λ j. data_of j ≡ props_data defs.now) }
{
    let mut fields = Fields::new(alloc);
    for def in defs {
        fields.put(alloc, def.id.as_str(), prop_json(alloc, def)?)?;
    }
    Ok(Json::object(fields))
}

#[tactic(auto, unfolding(crate::specs::Showing::mutability_data))]
fn mutability_json(alloc: Global, mutability: TypeMutability) -> Result<Json, AllocError>
    ensures { IfOk result (λ j. data_of j ≡ mutability_data mutability) }
{
    let mut fields = Fields::new(alloc);
    fields.put(alloc, "create", Json::flag(mutability.create))?;
    fields.put(alloc, "update", Json::flag(mutability.update))?;
    fields.put(alloc, "delete", Json::flag(mutability.delete))?;
    Ok(Json::object(fields))
}

fn put_type_names(alloc: Global, fields: &mut Fields, def: &TypeDef) -> Result<(), AllocError>
    ensures { OnOk result (fields_of fields.new ≡ fold with_field (fields_of fields.old) (type_names def.now)) }
{
    let texts = [
        ("id", &def.id),
        ("localName", &def.local_name),
        ("localNamespace", &def.local_namespace),
        ("displayName", &def.display_name),
        ("queryName", &def.query_name),
        ("description", &def.description),
    ];
    put_texts(alloc, fields, &texts)
}

fn put_type_flags(alloc: Global, fields: &mut Fields, def: &TypeDef) -> Result<(), AllocError>
    ensures { OnOk result (fields_of fields.new ≡ fold with_field (fields_of fields.old) (type_flags def.now)) }
{
    let flags = [
        ("creatable", def.creatable),
        ("fileable", def.fileable),
        ("queryable", def.queryable),
        ("fulltextIndexed", def.fulltext_indexed),
        ("includedInSupertypeQuery", def.included_in_supertype_query),
        ("controllablePolicy", def.controllable_policy),
        ("controllableACL", def.controllable_acl),
    ];
    put_flags(alloc, fields, &flags)
}

fn put_parent(alloc: Global, fields: &mut Fields, parent: &Option<Text>) -> Result<(), AllocError>
    ensures { OnOk result (fields_of fields.new ≡ fold with_field (fields_of fields.old) (parent_fields parent.now)) }
{
    match parent {
        Some(parent) => fields.put(alloc, "parentId", Json::text(alloc, parent.as_str())?),
        None => Ok(()),
    }
}

fn put_content(alloc: Global, fields: &mut Fields, def: &TypeDef) -> Result<(), AllocError>
    ensures { OnOk result (fields_of fields.new ≡ fold with_field (fields_of fields.old) (document_fields def.now)) }
{
    let content = Json::text(alloc, def.content_allowed.word())?;
    fields.put(alloc, "versionable", Json::flag(def.versionable))?;
    fields.put(alloc, "contentStreamAllowed", content)?;
    Ok(())
}

fn put_ends(alloc: Global, fields: &mut Fields, def: &TypeDef) -> Result<(), AllocError>
    ensures { OnOk result (fields_of fields.new
        ≡ fold with_field (fields_of fields.old) (relationship_fields def.now)) }
{
    let sources = texts_json(alloc, def.allowed_source_types.as_slice())?;
    let targets = texts_json(alloc, def.allowed_target_types.as_slice())?;
    fields.put(alloc, "allowedSourceTypes", Json::array(sources))?;
    fields.put(alloc, "allowedTargetTypes", Json::array(targets))?;
    Ok(())
}

fn put_of_base(alloc: Global, fields: &mut Fields, def: &TypeDef) -> Result<(), AllocError>
    ensures { OnOk result (fields_of fields.new
        ≡ fold with_field (fields_of fields.old) (base_fields def.now.base def.now)) }
{
    match def.base {
        BaseType::Document => put_content(alloc, fields, def),
        BaseType::Relationship => put_ends(alloc, fields, def),
        _ => Ok(()),
    }
}

fn put_props(
    alloc: Global,
    fields: &mut Fields,
    with_properties: bool,
    defs: &[PropDef],
) -> Result<(), AllocError>
    ensures { OnOk result (fields_of fields.new
        ≡ fold with_field (fields_of fields.old) (props_fields with_properties defs.now)) }
{
    if with_properties {
        let json = props_json(alloc, defs)?;
        fields.put(alloc, "propertyDefinitions", json)
    } else {
        Ok(())
    }
}

fn put_type_values(alloc: Global, fields: &mut Fields, def: &TypeDef) -> Result<(), AllocError>
    ensures { OnOk result (fields_of fields.new ≡ fold with_field (fields_of fields.old) (type_values def.now)) }
{
    let mutability = mutability_json(alloc, def.mutability)?;
    fields.put(alloc, "baseId", Json::text(alloc, def.base.id())?)?;
    fields.put(alloc, "typeMutability", mutability)?;
    Ok(())
}

/// A type definition (CMIS 1.1, section 5.2.9), with the property definitions of its own or without.
#[tactic(auto, unfolding(crate::specs::Showing::type_data))]
pub fn type_value(alloc: Global, def: &TypeDef, with_properties: bool) -> Result<Json, AllocError>
    ensures { IfOk result (λ j. data_of j ≡ type_data with_properties def.now) }
{
    let mut fields = Fields::new(alloc);
    put_type_names(alloc, &mut fields, def)?;
    put_type_values(alloc, &mut fields, def)?;
    put_type_flags(alloc, &mut fields, def)?;
    put_of_base(alloc, &mut fields, def)?;
    put_parent(alloc, &mut fields, &def.parent)?;
    put_props(
        alloc,
        &mut fields,
        with_properties,
        def.properties.as_slice(),
    )?;
    Ok(Json::object(fields))
}
