//! The rendition filter (CMIS 1.1, section 2.2.1.2.4.1).
ghost use Rattle.std.specs.Prelude.{◌≡◌, IfOk, map, option_map};
ghost use Rattle.bind_readings.specs.Filters.{filter_by, filter_read, included_filter, items_in, listed_filter};

use cm_base::items::Items;
use cm_base::text::{Text, Texts};
use form_args::filter::commas;
use form_args::pairs::Pairs;
use rendition_parts::filter::RenditionFilter;
use std::alloc::{AllocError, Global};

const RENDITION_FILTER: &str = "renditionFilter";

fn texts_of(alloc: Global, pieces: &[&str]) -> Result<Texts, AllocError>
    ensures { IfOk result (λ all. all ≡ map (λ x. x.now) pieces.now) }
{
    let mut all = Items::new(alloc);
    for piece in pieces {
        all.push(Text::from_str(alloc, piece)?)?;
    }
    Ok(all)
}

// What stands between commas, and nothing of an empty text.
fn items_in(alloc: Global, text: &str) -> Result<Texts, AllocError>
    ensures { IfOk result (λ all. all ≡ items_in text.now) }
{
    if text.is_empty() {
        return Ok(Items::new(alloc));
    }
    let pieces = commas(alloc, text)?;
    texts_of(alloc, &pieces)
}

fn filter_read(alloc: Global, text: &str) -> Result<RenditionFilter, AllocError>
    ensures { IfOk result (λ f. f ≡ filter_read text.now) }
{
    if text == "cmis:none" {
        return Ok(RenditionFilter::None);
    }
    if text == "*" {
        return Ok(RenditionFilter::All);
    }
    let items = items_in(alloc, text)?;
    Ok(RenditionFilter::Listed(items))
}

fn filter_by(
    alloc: Global,
    default: RenditionFilter,
    given: Option<&Text>,
) -> Result<RenditionFilter, AllocError>
    ensures { IfOk result (λ f. f ≡ filter_by default (option_map (λ t. t.now) given.entry)) }
{
    match given {
        None => Ok(default),
        Some(text) => filter_read(alloc, text.as_str()),
    }
}

/// The filter of the renditions that are shown with an object: none where nothing is said. It has no causes: each item is a kind or a media
/// type, blanks and all, and an empty text keeps nothing.
pub fn included_filter(alloc: Global, pairs: &Pairs) -> Result<RenditionFilter, AllocError>
    ensures { IfOk result (λ f. f ≡ included_filter pairs.now) }
{
    filter_by(alloc, RenditionFilter::None, pairs.first(RENDITION_FILTER))
}

/// The filter of the selector renditions: all where nothing is said.
pub fn listed_filter(alloc: Global, pairs: &Pairs) -> Result<RenditionFilter, AllocError>
    ensures { IfOk result (λ f. f ≡ listed_filter pairs.now) }
{
    filter_by(alloc, RenditionFilter::All, pairs.first(RENDITION_FILTER))
}
