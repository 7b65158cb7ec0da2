//! What the filing tells of a child.
ghost use Rattle.std.specs.Prelude.{◌≡◌, false, true, IfOk};
ghost use Rattle.cm_base.specs.declared.number.Oid.{Oid};
ghost use Rattle.cm_folder.specs.Filings.{retold as told_anew, filed_with};
ghost use Rattle.cmis_spec.specs.Repository.{same};
ghost use Rattle.cm_state.specs.Told.{object_in, series_in, folder_by, name_by, entry_by, entries_of};

use crate::draft::Draft;
use crate::made::{filing_of, given_up, objects_of, put_objects, put_series, series_of};
use cm_base::number::Oid;
use cm_base::series::Series;
use cm_base::text::Text;
use cm_folder::entry::FilingEntry;
use cm_folder::filing::Filing;
use cm_map::table::Table;
use cm_objects::objects::Objects;
use cm_state::parts::Parts;
use cm_state::told::is_of_base;
use cm_type_list::types::Types;
use cm_types::definition::BaseType;
use std::alloc::{AllocError, Global};

fn is_folder(types: &Types, objects: &Objects, n: Oid) -> bool
    ensures { result ≡ folder_by types.now objects.now n }
{
    match objects.get(n.0) {
        Some(x) => is_of_base(types, BaseType::Folder, &x.kind),
        None => false,
    }
}

fn name_of<'a>(series: &'a Table<Series>, objects: &'a Objects, n: Oid) -> &'a str
    ensures { result.now ≡ name_by series.now objects.now n }
{
    if let Some(one) = series.get(n.0) {
        return one.name.as_str();
    }
    if let Some(x) = objects.get(n.0) {
        if let Some(own) = &x.name {
            return own.as_str();
        }
    }
    ""
}

// The entry of a child in a folder.
fn entry(alloc: Global, parts: &Parts, folder: Oid, child: Oid) -> Result<FilingEntry, AllocError>
    ensures { IfOk result (λ e. e ≡ entry_by parts.now.types parts.now.series parts.now.objects
        (record { folder = folder; child = child })) }
{
    let objects = objects_of(parts);
    let name = Text::from_str(alloc, name_of(series_of(parts), objects, child))?;
    Ok(FilingEntry {
        folder,
        child,
        is_folder: is_folder(parts.types(), objects, child),
        name,
    })
}

/// The filing with a child more in a folder.
pub(crate) fn filed(
    alloc: Global,
    parts: &Parts,
    folder: Oid,
    child: Oid,
) -> Result<Filing, AllocError>
    ensures { IfOk result (λ f. f ≡ filed_with (entries_of parts.now)
        (entry_by parts.now.types parts.now.series parts.now.objects (record { folder = folder; child = child }))) }
{
    let entry = entry(alloc, parts, folder, child)?;
    let filing = filing_of(parts).with_entry(alloc, entry)?;
    Ok(filing)
}

// Whether these lists tell of a child what those before told.
fn tells_the_same(parts: &Parts, series: &Table<Series>, objects: &Objects, n: Oid) -> bool
    ensures folder { result ≡ true → folder_by parts.now.types parts.now.objects n
        ≡ folder_by parts.now.types objects.now n }
    ensures name { result ≡ true → name_by parts.now.series parts.now.objects n ≡ name_by series.now objects.now n }
{
    let types = parts.types();
    let before = objects_of(parts);
    is_folder(types, before, n) == is_folder(types, objects, n)
        && name_of(series_of(parts), before, n) == name_of(series, objects, n)
}

// The filing with what these lists tell of the entry. It is shared where they tell what it tells already.
fn retold(
    alloc: Global,
    parts: &Parts,
    series: &Table<Series>,
    objects: &Objects,
    n: Oid,
) -> Result<Filing, AllocError>
    ensures { IfOk result (λ f. f ≡ told_anew (entries_of parts.now) n (folder_by parts.now.types objects.now n)
        (name_by series.now objects.now n)) }
{
    if tells_the_same(parts, series, objects, n) {
        let same = filing_of(parts).share(alloc)?;
        return Ok(same);
    }
    let name = Text::from_str(alloc, name_of(series, objects, n))?;
    let is_folder = is_folder(parts.types(), objects, n);
    let told = filing_of(parts).retold(alloc, n, is_folder, &name)?;
    Ok(told)
}

// What the filing tells where these are the objects, of which the one of this number alone is another.
fn retold_by_objects(
    alloc: Global,
    parts: &Parts,
    objects: &Objects,
    n: Oid,
) -> Result<Filing, AllocError>
    requires others { (m : Oid) → same m n ≡ false → object_in objects.now m ≡ object_in parts.now.objects m }
    ensures { IfOk result (λ f. f ≡ entries_of (record parts.now { objects = objects.now })) }
{
    let filing = retold(alloc, parts, series_of(parts), objects, n)?;
    Ok(filing)
}

// What the filing tells where these are the series, of which the one of this number alone is another.
fn retold_by_series(
    alloc: Global,
    parts: &Parts,
    series: &Table<Series>,
    n: Oid,
) -> Result<Filing, AllocError>
    requires others { (m : Oid) → same m n ≡ false → series_in series.now m ≡ series_in parts.now.series m }
    ensures { IfOk result (λ f. f ≡ entries_of (record parts.now { series = series.now })) }
{
    let filing = retold(alloc, parts, series, objects_of(parts), n)?;
    Ok(filing)
}

/// The draft with these objects, of which the one of this number alone is another.
pub(crate) fn with_objects(
    alloc: Global,
    draft: Draft,
    objects: Objects,
    n: Oid,
) -> Result<Draft, AllocError>
    requires others { (m : Oid) → same m n ≡ false → object_in objects m ≡ object_in draft.objects m }
    ensures { IfOk result (λ d. d ≡ record draft { objects = objects }) }
{
    match retold_by_objects(alloc, draft.parts(), &objects, n) {
        Ok(filing) => Ok(put_objects(draft, objects, filing)),
        Err(short) => Err(given_up(draft, short)),
    }
}

/// The draft with these series, of which the one of this number alone is another.
pub(crate) fn with_all_series(
    alloc: Global,
    draft: Draft,
    series: Table<Series>,
    n: Oid,
) -> Result<Draft, AllocError>
    requires others { (m : Oid) → same m n ≡ false → series_in series m ≡ series_in draft.series m }
    ensures { IfOk result (λ d. d ≡ record draft { series = series }) }
{
    match retold_by_series(alloc, draft.parts(), &series, n) {
        Ok(filing) => Ok(put_series(draft, series, filing)),
        Err(short) => Err(given_up(draft, short)),
    }
}
