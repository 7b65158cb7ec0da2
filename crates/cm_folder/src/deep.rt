//! Folders that would stand too deep in another folder (CMIS 1.1, section 2.1.5.2).
ghost use Rattle.std.specs.Prelude.{◌≡◌, ◌+◌, ◌-◌, ◌&&◌, ◌<◌, nat_lt, T};
ghost use Rattle.core.specs.Ordering.{nat_cmp};
ghost use Rattle.core.specs.FinMap.Entries.{is_sorted};
ghost use Rattle.std.specs.List.{list_any};
ghost use Rattle.cmis_spec.specs.Repository.{same, most_levels};
ghost use Rattle.cm_folder.specs.Depths.{is_first_in, is_far, has_far};
ghost use Rattle.cm_folder.specs.Filings.{is_too_deep};
ghost use Rattle.cm_folder.specs.Trees.{is_folder_in};

use crate::filing::{Filing, levels};
use cm_base::number::Oid;
use cm_map::map::Map;

// How many entries lie at most between the root and a folder.
#[tactic(auto, unfolding(cmis_spec::specs::Repository::most_levels))]
fn most_levels() -> u64
    ensures { result ≡ most_levels }
{
    48
}

// A folder of this depth would stand deeper than is allowed, where what is moved stands so deep now, and then in a folder of the target's depth.
fn is_far(target: u64, depth: u64, moved: u64) -> bool
    requires target { target < 50 }
    requires depth { depth < 50 }
    ensures { result ≡ nat_lt most_levels (target + 1 + (depth - moved)) }
{
    most_levels() < target + 1 + depth.saturating_sub(moved)
}

impl Filing {
    /// Whether the child is filed as a folder. It takes no memory.
    pub fn is_folder(&self, child: Oid) -> bool
        ensures { result ≡ is_folder_in self.now child }
    {
        self.parts.is_folder(child)
    }

    // Whether the folder is that of the child's first entry.
    fn is_first(&self, folder: Oid, child: Oid) -> bool
        ensures { result ≡ is_first_in self.now folder child }
    {
        match self.folder_of(child) {
            Some(up) => folder.0 == up.0,
            None => false,
        }
    }

    // The child is filed as a folder, and would stand too deep.
    fn is_far_folder(&self, target: u64, moved: u64, child: Oid) -> bool
        requires target { target < 50 }
        ensures { result ≡ list_any (λ e. same e.child child && is_far self.now target moved e) self.now }
    {
        self.is_folder(child) && is_far(target, self.depth(child), moved)
    }

    // In one of the children that stand in the folder first, or so far below it, a folder would stand too deep.
    #[cycle(below)]
    fn has_far_among(
        &self,
        levels: u64,
        target: u64,
        moved: u64,
        folder: Oid,
        children: &Map<u64, Oid>,
    ) -> bool
        requires target { target < 50 }
        ensures value { result ≡ list_any (λ e. is_first_in self.now folder e.1
            && has_far levels self.now target moved e.1) children.now }
        ensures sorted { T (is_sorted nat_cmp children.now) }
    {
        let mut found = false;
        for entry in children.iter() {
            let at: &(u64, Oid) = entry;
            if self.is_first(folder, at.1) && self.has_far(levels, target, moved, at.1) {
                found = true;
            }
        }
        found
    }

    // The folder, or one that stands fewer than so many entries below it, would stand too deep. It looks only at what is filed there.
    #[cycle(below)]
    fn has_far(&self, levels: u64, target: u64, moved: u64, folder: Oid) -> bool
        requires target { target < 50 }
        ensures { result ≡ has_far levels self.now target moved folder }
    {
        if levels == 0 {
            return false;
        }
        if self.is_far_folder(target, moved, folder) {
            return true;
        }
        match self.parts.by_folder.bucket(&folder.0) {
            Some(children) => self.has_far_among(levels - 1, target, moved, folder, children),
            None => false,
        }
    }

    // The child, or a folder below it, would stand too deep in the target. Where the child gets no deeper, none does.
    pub(crate) fn has_deep(&self, child: Oid, target: Oid) -> bool
        ensures { result ≡ list_any (is_too_deep self.now child target) self.now }
    {
        let moved = self.depth(child);
        let depth = self.depth(target);
        if depth < moved {
            return false;
        }
        self.has_far(levels(), depth, moved, child)
    }
}
