//! A page of a list: some of its items are passed over, and the next ones are shown.
ghost use Rattle.std.specs.Prelude.{◌≡◌, ◌<◌, drop, take};
ghost use Rattle.rd_nav.specs.ReadChildren.{has_more, most_items, page, page_size};

#[tactic(auto, unfolding(crate::specs::ReadChildren::most_items))]
fn most_items() -> u64
    ensures { result ≡ most_items }
{
    1000
}

fn page_size(asked: u64) -> u64
    ensures { result ≡ page_size asked }
{
    asked.min(most_items())
}

fn behind<'a, 'b, T>(skip: u64, items: &'a [&'b T]) -> &'a [&'b T]
    ensures { result.now ≡ drop skip items.now }
{
    if skip < items.len() as u64 {
        &items[skip as usize..]
    } else {
        &items[items.len()..]
    }
}

fn front<'a, 'b, T>(most: u64, items: &'a [&'b T]) -> &'a [&'b T]
    ensures { result.now ≡ take most items.now }
{
    if most < items.len() as u64 {
        &items[..most as usize]
    } else {
        items
    }
}

/// The page of at most so many items behind those that are passed over, and of at most 1000.
pub fn page<'a, 'b, T>(skip: u64, asked: u64, items: &'a [&'b T]) -> &'a [&'b T]
    ensures { result.now ≡ page skip asked items.now }
{
    front(page_size(asked), behind(skip, items))
}

/// Whether items come after the page.
pub fn has_more<T>(skip: u64, asked: u64, items: &[&T]) -> bool
    ensures { result ≡ has_more skip asked items.now }
{
    skip.saturating_add(page_size(asked)) < items.len() as u64
}
