//! The lists of a draft, and a draft with one of them another.
ghost use Rattle.std.specs.Prelude.{◌≡◌, ◌+◌, ◌<◌, ◌^◌, All};
ghost use Rattle.std.specs.Arc.{arc_value};
ghost use Rattle.cm_types.specs.declared.definition.BaseType.TheVariants as bases;
ghost use Rattle.cm_types.specs.Types.{is_of_base};
ghost use Rattle.cm_folder.specs.Filings.{pairs_of};
ghost use Rattle.cm_state.specs.Told.{entries_of};

use crate::draft::Draft;
use cm_base::access::AccessList;
use cm_base::content::Content;
use cm_base::series::Series;
use cm_content::renditions::Renditions;
use cm_folder::filing::Filing;
use cm_link::links::Links;
use cm_log::log::Log;
use cm_map::table::Table;
use cm_objects::objects::Objects;
use cm_state::parts::Parts;
use cm_type_list::types::Types;
use std::alloc::AllocError;
use std::sync::Arc;

// ---- the lists

/// The objects.
pub(crate) fn objects_of(parts: &Parts) -> &Objects
    ensures { result.now ≡ parts.now.objects }
{
    &parts.lists.objects
}

/// The series.
pub(crate) fn series_of(parts: &Parts) -> &Table<Series>
    ensures { result.now ≡ parts.now.series }
{
    &parts.lists.series
}

/// The access control lists.
pub(crate) fn access_of(parts: &Parts) -> &Table<AccessList>
    ensures { result.now ≡ parts.now.access }
{
    &parts.lists.access
}

/// The contents.
pub(crate) fn contents_of(parts: &Parts) -> &Table<Content>
    ensures { result.now ≡ parts.now.contents }
{
    &parts.lists.contents
}

/// The applied policies.
pub(crate) fn applied_of(parts: &Parts) -> &Links
    ensures { result.now ≡ parts.now.applied }
{
    &parts.lists.applied
}

/// The renditions.
pub(crate) fn renditions_of(parts: &Parts) -> &Renditions
    ensures { result.now ≡ parts.now.renditions }
{
    &parts.lists.renditions
}

/// The filing.
pub(crate) fn filing_of(parts: &Parts) -> &Filing
    ensures { result.now ≡ entries_of parts.now }
{
    &parts.filing
}

// ---- the draft with them

/// The draft with these objects, of which the filing tells.
pub(crate) fn put_objects(draft: Draft, objects: Objects, filing: Filing) -> Draft
    requires told { filing ≡ entries_of (record draft { objects = objects }) }
    ensures { result ≡ record draft { objects = objects } }
{
    let parts = draft.parts;
    let lists = parts.lists.with_objects(objects);
    Draft {
        parts: Parts {
            filing,
            lists,
            ..parts
        },
    }
}

/// The draft with these series, of which the filing tells.
pub(crate) fn put_series(draft: Draft, series: Table<Series>, filing: Filing) -> Draft
    requires told { filing ≡ entries_of (record draft { series = series }) }
    ensures { result ≡ record draft { series = series } }
{
    let parts = draft.parts;
    let lists = parts.lists.with_series(series);
    Draft {
        parts: Parts {
            filing,
            lists,
            ..parts
        },
    }
}

/// The draft with this filing.
pub(crate) fn put_filing(draft: Draft, filing: Filing) -> Draft
    requires told { filing ≡ entries_of (record draft { filed = pairs_of filing }) }
    ensures { result ≡ record draft { filed = pairs_of filing } }
{
    let parts = draft.parts;
    Draft {
        parts: Parts { filing, ..parts },
    }
}

/// The draft with these access control lists.
pub(crate) fn put_access(draft: Draft, access: Table<AccessList>) -> Draft
    ensures { result ≡ record draft { access = access } }
{
    let parts = draft.parts;
    let lists = parts.lists.with_access(access);
    Draft {
        parts: Parts { lists, ..parts },
    }
}

/// The draft with these applied policies.
pub(crate) fn put_applied(draft: Draft, applied: Links) -> Draft
    ensures { result ≡ record draft { applied = applied } }
{
    let parts = draft.parts;
    let lists = parts.lists.with_applied(applied);
    Draft {
        parts: Parts { lists, ..parts },
    }
}

/// The draft with these contents.
pub(crate) fn put_contents(draft: Draft, contents: Table<Content>) -> Draft
    ensures { result ≡ record draft { contents = contents } }
{
    let parts = draft.parts;
    let lists = parts.lists.with_contents(contents);
    Draft {
        parts: Parts { lists, ..parts },
    }
}

/// The draft with these renditions.
pub(crate) fn put_renditions(draft: Draft, renditions: Renditions) -> Draft
    ensures { result ≡ record draft { renditions = renditions } }
{
    let parts = draft.parts;
    let lists = parts.lists.with_renditions(renditions);
    Draft {
        parts: Parts { lists, ..parts },
    }
}

/// The draft with this log.
pub(crate) fn put_log(draft: Draft, log: Log) -> Draft
    ensures { result ≡ record draft { log = log } }
{
    let parts = draft.parts;
    let lists = parts.lists.with_log(log);
    Draft {
        parts: Parts { lists, ..parts },
    }
}

/// The draft with these types, by which the same objects are folders.
pub(crate) fn put_types(draft: Draft, types: Arc<Types>) -> Draft
    requires folders { All (λ x. is_of_base (arc_value types) bases.Folder x.kind
        ≡ is_of_base draft.types bases.Folder x.kind) draft.objects }
    ensures { result ≡ record draft { types = arc_value types } }
{
    let parts = draft.parts;
    Draft {
        parts: Parts { types, ..parts },
    }
}

/// The draft with the next number taken.
pub(crate) fn counted(draft: Draft) -> Draft
    requires room { draft.next + 1 < 2 ^ 64 }
    ensures { result ≡ record draft { next = draft.next + 1 } }
{
    let parts = draft.parts;
    Draft {
        parts: Parts {
            next: parts.next + 1,
            ..parts
        },
    }
}

/// The draft given up, where memory is short. That it goes is proved here alone.
pub(crate) fn given_up(_draft: Draft, short: AllocError) -> AllocError {
    short
}
