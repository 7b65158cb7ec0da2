//! The rendition filter (CMIS 1.1, section 2.2.1.2.4.1).
ghost use Rattle.std.specs.Prelude.{◌≡◌};
ghost use Rattle.std.specs.List.{list_any};
ghost use Rattle.rendition_parts.specs.Filters.{is_in_range, names, keeps};

use cm_base::media::MediaType;
use cm_base::text::{Text, Texts};

/// Which renditions of an object are shown (section 2.2.1.2.4.1): none, all, or those of these kinds and media types. An item `a/*`
/// stands for every media type that begins with `a/`.
#[derive(Drop)]
pub enum RenditionFilter {
    None,
    All,
    Listed(Texts),
}

// Whether the item ends with `/*`, and the media type begins with what stands before the star.
fn is_in_range(item: &[u8], media: &[u8]) -> bool
    ensures { result ≡ is_in_range item.now media.now }
{
    item.ends_with(b"/*") && media.starts_with(&item[..item.len() - 1])
}

// Whether the item is the kind, the media type, or a range with it.
fn names(kind: &Text, media: &MediaType, item: &Text) -> bool
    ensures { result ≡ names kind.now media.now item.now }
{
    let media = media.as_str().as_bytes();
    item.is(kind) || (item.bytes() == media || is_in_range(item.bytes(), media))
}

fn any_names(items: &[Text], kind: &Text, media: &MediaType) -> bool
    ensures { result ≡ list_any (names kind.now media.now) items.now }
{
    items.iter().any(|item| names(kind, media, item))
}

impl RenditionFilter {
    /// Whether a rendition of this kind and media type is shown.
    pub fn keeps(&self, kind: &Text, media: &MediaType) -> bool
        ensures { result ≡ keeps self.now kind.now media.now }
    {
        match self {
            RenditionFilter::None => false,
            RenditionFilter::All => true,
            RenditionFilter::Listed(items) => any_names(items.as_slice(), kind, media),
        }
    }
}
