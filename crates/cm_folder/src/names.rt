//! The children of folders by name.
ghost use Rattle.std.specs.Prelude.{◌≡◌, ℕ, ◌&&◌, [], None, Some, List, IfOk, option_copied, if◌then◌else◌};
ghost use Rattle.core.specs.Ordering.{nat_cmp, eq_by_cmp};
ghost use Rattle.core.specs.Cmp.Lexicographic.{slice_cmp};
ghost use Rattle.core.specs.FinMap.Entries.{put};
ghost use Rattle.cm_map.specs.Parts.{without_key};
ghost use Rattle.cm_map.specs.Buckets.{find_in};
ghost use Rattle.cm_folder.specs.Places.{name_order, names_under, find_named};

use cm_base::copies::Copies;
use cm_base::number::Oid;
use cm_base::text::Text;
use cm_map::buckets::Buckets;
use cm_map::map::Map;
use std::alloc::{AllocError, Global};
use std::marker::Model;

/// By folder and name, the children with the places of their entries.
#[derive(Drop)]
pub struct Names {
    maps: Buckets<u64, Text, Map<u64, Oid>>,
}

impl Model for Names {
    ghost use Rattle.std.specs.Prelude.{ℕ, List};
    ghost use Rattle.cm_base.specs.declared.number.Oid.{Oid};

    ghost Value = { List (ℕ × List (List ℕ × List (ℕ × Oid))) };

    ghost view = { λ s. s.maps };
}

impl Names {
    /// No children, which take no memory.
    pub fn empty(alloc: Global) -> Names
        ensures { result ≡ [] }
    {
        Names {
            maps: Buckets::empty(alloc),
        }
    }

    /// The same children once more, by sharing.
    pub fn share(&self, alloc: Global) -> Result<Names, AllocError>
        ensures { IfOk result (λ m. m ≡ self.now) }
    {
        let maps = self.maps.share(alloc)?;
        Ok(Names { maps })
    }

    /// The children of the folder under the name. It takes no memory.
    pub fn under(&self, folder: u64, name: &Text) -> Option<&Map<u64, Oid>>
        ensures { option_copied result ≡ find_in nat_cmp (slice_cmp nat_cmp) self.now folder name.now }
    {
        self.maps.get(&folder, name)
    }

    // The children under the name, one more in its place.
    fn more_under(
        &self,
        alloc: Global,
        folder: u64,
        name: &Text,
        place: u64,
        child: Oid,
    ) -> Result<Map<u64, Oid>, AllocError>
        ensures { IfOk result (λ m. m ≡ put nat_cmp place child (names_under self.now (folder, name.now))) }
    {
        match self.under(folder, name) {
            Some(old) => old.with(alloc, place, child),
            None => Map::empty(alloc).with(alloc, place, child),
        }
    }

    // The children under the name, but for the one in the place.
    fn fewer_under(
        &self,
        alloc: Global,
        folder: u64,
        name: &Text,
        place: u64,
    ) -> Result<Map<u64, Oid>, AllocError>
        ensures { IfOk result (λ m. m ≡ without_key nat_cmp place (names_under self.now (folder, name.now))) }
    {
        match self.under(folder, name) {
            Some(old) => old.without(alloc, &place),
            None => Ok(Map::empty(alloc)),
        }
    }

    // These children under the name; where there are none, nothing is kept.
    fn with_under(
        &self,
        alloc: Global,
        folder: u64,
        name: &Text,
        children: Map<u64, Oid>,
    ) -> Result<Names, AllocError>
        ensures { IfOk result (λ m. (k : ℕ × List ℕ) → names_under m k
            ≡ (if eq_by_cmp nat_cmp k.0 folder && eq_by_cmp
            (slice_cmp nat_cmp) k.1 name.now then children else names_under self.now k)) }
    {
        if children.is_empty() {
            let maps = self.maps.without(alloc, folder, name)?;
            return Ok(Names { maps });
        }
        let key = name.copied(alloc)?;
        let maps = self.maps.with(alloc, folder, key, children)?;
        Ok(Names { maps })
    }

    /// The children, one more under its folder and name.
    pub fn with(
        &self,
        alloc: Global,
        folder: u64,
        name: &Text,
        place: u64,
        child: Oid,
    ) -> Result<Names, AllocError>
        ensures { IfOk result (λ m. (k : ℕ × List ℕ) (p : ℕ) → find_named m k p
            ≡ (if eq_by_cmp name_order k (folder, name.now)
            && eq_by_cmp nat_cmp p place then Some child else find_named self.now k p)) }
    {
        let children = self.more_under(alloc, folder, name, place, child)?;
        let names = self.with_under(alloc, folder, name, children)?;
        Ok(names)
    }

    /// The children, but for the one in the place under its folder and name.
    pub fn without(
        &self,
        alloc: Global,
        folder: u64,
        name: &Text,
        place: u64,
    ) -> Result<Names, AllocError>
        ensures { IfOk result (λ m. (k : ℕ × List ℕ) (p : ℕ) → find_named m k p
            ≡ (if eq_by_cmp name_order k (folder, name.now)
            && eq_by_cmp nat_cmp p place then None else find_named self.now k p)) }
    {
        let children = self.fewer_under(alloc, folder, name, place)?;
        let names = self.with_under(alloc, folder, name, children)?;
        Ok(names)
    }
}
