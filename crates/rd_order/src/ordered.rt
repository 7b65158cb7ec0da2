//! Lists of objects in order.
ghost use Rattle.std.specs.Prelude.{◌≡◌, IfOk, map};
ghost use Rattle.cm_map.specs.Parts.{pointee};
ghost use Rattle.cm_base.specs.Judged.{Meets};
ghost use Rattle.rd_order.specs.Ordered.{in_order, object_order, ordered, sort_filter, sort_row, sorted_by, values_in};
ghost use Rattle.rd_order.specs.Keyed.{object_and_row, rows_in_order, with_row};

use crate::key::sort_keys;
use call_parts::names::Names;
use call_parts::readings::PropertyFilter;
use call_parts::replies::Properties;
use cm_base::copies::Copies;
use cm_base::fail::Fail;
use cm_base::items::Items;
use cm_base::object::Object;
use cm_base::text::{Text, Texts};
use cm_base::value::Values;
use cm_see::shown::shown_object;
use cm_state::state::State;
use order_parts::readings::{SortSpecification, SortSpecifications};
use ql_bind::bound::OrderKey;
use ql_eval::order::row_order;
use ql_eval::row::Row;
use std::alloc::{AllocError, Global};

/// An object with the values by which it is put in order, which are read once.
#[derive(Drop)]
pub struct Keyed<'a> {
    object: &'a Object,
    row: Row,
}

fn query_names(alloc: Global, specifications: &[SortSpecification]) -> Result<Texts, AllocError>
    ensures { IfOk result (λ names. names ≡ map (λ s. s.query_name) specifications.now) }
{
    let mut names = Items::new(alloc);
    for specification in specifications {
        names.push(specification.query_name.copied(alloc)?)?;
    }
    Ok(names)
}

// Only the properties that are ordered by.
fn sort_filter(
    alloc: Global,
    specifications: &[SortSpecification],
) -> Result<PropertyFilter, AllocError>
    ensures { IfOk result (λ f. f ≡ sort_filter specifications.now) }
{
    let names = query_names(alloc, specifications)?;
    let names = Names::from_texts(alloc, names)?;
    Ok(PropertyFilter::QueryNames(names))
}

fn values_in(alloc: Global, properties: Properties) -> Values
    ensures { result ≡ values_in properties }
{
    match properties {
        Properties::Succinct(slots) => slots,
        Properties::Full(_) => Items::new(alloc),
    }
}

fn sort_row(
    alloc: Global,
    state: &State,
    user: &Text,
    filter: &PropertyFilter,
    x: &Object,
) -> Result<Row, AllocError>
    ensures { IfOk result (λ row. row ≡ sort_row state.now user.now filter.now x.now) }
{
    let shown = shown_object(alloc, state, user, filter, true, x)?;
    Ok(Row {
        id: x.id,
        values: values_in(alloc, shown.properties),
        folders: Items::new(alloc),
        above: Items::new(alloc),
    })
}

fn with_row<'a>(
    alloc: Global,
    state: &State,
    user: &Text,
    filter: &PropertyFilter,
    x: &'a Object,
) -> Result<Keyed<'a>, AllocError>
    ensures { IfOk result (λ k. object_and_row k ≡ with_row state.now user.now filter.now x.now) }
{
    let row = sort_row(alloc, state, user, filter, x)?;
    Ok(Keyed { object: x, row })
}

fn all_keyed<'a>(
    alloc: Global,
    state: &State,
    user: &Text,
    filter: &PropertyFilter,
    objects: &[&'a Object],
) -> Result<Vec<Keyed<'a>>, AllocError>
    ensures { IfOk result (λ all. map object_and_row all.items
        ≡ map (with_row state.now user.now filter.now) (map pointee objects.now)) }
{
    let mut all = Vec::new(alloc);
    for x in objects {
        all.push(with_row(alloc, state, user, filter, x)?)?;
    }
    Ok(all)
}

// Those that tie keep their order.
fn sorted<'a>(all: Vec<Keyed<'a>>, keys: &[OrderKey]) -> Result<Vec<Keyed<'a>>, AllocError>
    ensures { IfOk result (λ sorted. sorted.items ≡ sorted_by (rows_in_order keys.now) all.entry.items) }
{
    let mut all = all;
    all.sort_by(|a, b| row_order(keys, &a.row, &b.row))?;
    Ok(all)
}

fn objects_of<'a>(alloc: Global, all: &[Keyed<'a>]) -> Result<Vec<&'a Object>, AllocError>
    ensures { IfOk result (λ objects. map pointee objects.items ≡ map (λ p. p.0) (map object_and_row all.now)) }
{
    let mut objects = Vec::new(alloc);
    for one in all {
        objects.push(one.object)?;
    }
    Ok(objects)
}

fn ordered_by<'a>(
    alloc: Global,
    state: &State,
    user: &Text,
    objects: &[&'a Object],
    filter: &PropertyFilter,
    keys: &[OrderKey],
) -> Result<Vec<&'a Object>, AllocError>
    ensures { IfOk result (λ all. map pointee all.items
        ≡ sorted_by (object_order state.now user.now filter.now keys.now) (map pointee objects.now)) }
{
    let all = all_keyed(alloc, state, user, filter, objects)?;
    let sorted = sorted(all, keys)?;
    let objects = objects_of(alloc, &sorted)?;
    Ok(objects)
}

fn ordered_by_names<'a>(
    alloc: Global,
    state: &State,
    user: &Text,
    objects: &[&'a Object],
    specifications: &[SortSpecification],
    keys: &[OrderKey],
) -> Result<Vec<&'a Object>, AllocError>
    ensures { IfOk result (λ all. map pointee all.items
        ≡ sorted_by (object_order state.now user.now (sort_filter specifications.now) keys.now)
        (map pointee objects.now)) }
{
    let filter = sort_filter(alloc, specifications)?;
    let all = ordered_by(alloc, state, user, objects, &filter, keys)?;
    Ok(all)
}

#[tactic(auto, using(cm_types::proofs::Exits::fails_bind))]
fn in_order<'a>(
    alloc: Global,
    state: &State,
    user: &Text,
    objects: &[&'a Object],
    specifications: &[SortSpecification],
) -> Result<Vec<&'a Object>, Fail>
    ensures { Meets (λ all. map pointee all.items) result
        (in_order state.now user.now specifications.now (map pointee objects.now)) }
{
    let keys = sort_keys(alloc, state.types(), specifications)?;
    let all = ordered_by_names(alloc, state, user, objects, specifications, keys.as_slice())?;
    Ok(all)
}

/// The objects in the order that is asked for, by the values of properties as the caller sees them; where these tie, by their numbers
/// upwards. Where no order is asked for they stay as they are. A name that no property has, or one that is not orderable, is
/// BadArgument `orderBy`. The values of each object are read once.
pub fn ordered<'a>(
    alloc: Global,
    state: &State,
    user: &Text,
    objects: Vec<&'a Object>,
    order: &SortSpecifications,
) -> Result<Vec<&'a Object>, Fail>
    ensures { Meets (λ all. map pointee all.items) result
        (ordered state.now user.now order.now (map pointee objects.entry.items)) }
{
    match order.as_slice() {
        [] => Ok(objects),
        [_, ..] => in_order(alloc, state, user, &objects, order.as_slice()),
    }
}
