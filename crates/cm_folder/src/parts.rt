//! Entries by their places, with their indexes.
ghost use Rattle.std.specs.Prelude.{◌≡◌, ℕ, ◌==◌, if◌then◌else◌, true, Option, None, Some, is_some, [], map, option_map, option_copied, option_and_then, IfOk, T};
ghost use Rattle.std.specs.List.{list_any, find as find_by};
ghost use Rattle.core.specs.Ordering.{nat_cmp};
ghost use Rattle.core.specs.FinMap.Entries.{find, put, is_sorted};
ghost use Rattle.cmis_spec.specs.Repository.{same};
ghost use Rattle.place_laws.specs.Places.{placed};
ghost use Rattle.cm_folder.specs.Filings.{is_entry, edit_of, edit_child};
ghost use Rattle.cm_folder.specs.Places.{child_key, is_folder_at, IsIndexed};
ghost use Rattle.cm_folder.specs.Trees.{is_folder_in};

use crate::edit::Edit;
use crate::entry::FilingEntry;
use crate::names::Names;
use cm_base::number::Oid;
use cm_map::buckets::Buckets;
use cm_map::map::Map;
use std::alloc::{AllocError, Global};

/// Entries by the places in which they were made; their folders by child; their children by folder, and by folder and name.
#[derive(Drop)]
pub struct Parts {
    pub entries: Map<u64, FilingEntry>,
    pub by_child: Buckets<u64, u64, Oid>,
    pub by_folder: Buckets<u64, u64, Oid>,
    pub by_name: Names,
}

// The first of the places.
fn first_place(folders: &Map<u64, Oid>) -> Option<u64>
    ensures value { result ≡ option_map (λ e. e.0) (find_by (λ e. true) folders.now) }
    ensures sorted { T (is_sorted nat_cmp folders.now) }
{
    let mut entries = folders.iter();
    match entries.next() {
        Some(entry) => Some(entry.0),
        None => None,
    }
}

// The place that was found, or this one where it has the folder.
fn earlier(found: Option<u64>, at: &(u64, Oid), folder: Oid) -> Option<u64>
    ensures { result ≡ (if is_some found then found else if same at.now.1 folder then Some at.now.0 else None) }
{
    match found {
        Some(place) => Some(place),
        None => { if at.1.0 == folder.0 { Some(at.0) } else { None } }
    }
}

// The first place that has the folder.
fn place_of(folders: &Map<u64, Oid>, folder: Oid) -> Option<u64>
    ensures value { result ≡ option_map (λ e. e.0) (find_by (λ e. same e.1 folder) folders.now) }
    ensures sorted { T (is_sorted nat_cmp folders.now) }
{
    let mut found: Option<u64> = None;
    for entry in folders.iter() {
        let at: &(u64, Oid) = entry;
        found = earlier(found, at, folder);
    }
    found
}

impl Parts {
    /// No entries, which take no memory.
    pub fn empty(alloc: Global) -> Parts
        ensures indexed { IsIndexed result.entries result.by_child result.by_folder result.by_name }
        ensures entries { result.entries ≡ [] }
    {
        Parts {
            entries: Map::empty(alloc),
            by_child: Buckets::empty(alloc),
            by_folder: Buckets::empty(alloc),
            by_name: Names::empty(alloc),
        }
    }

    /// The same entries once more, by sharing.
    pub fn share(&self, alloc: Global) -> Result<Parts, AllocError>
        ensures { IfOk result (λ s. s ≡ self.now) }
    {
        let entries = self.entries.share(alloc)?;
        let by_child = self.by_child.share(alloc)?;
        let by_folder = self.by_folder.share(alloc)?;
        let by_name = self.by_name.share(alloc)?;
        Ok(Parts {
            entries,
            by_child,
            by_folder,
            by_name,
        })
    }

    /// The entries with one more, in a place that has none.
    pub fn with_entry(
        &self,
        alloc: Global,
        place: u64,
        entry: FilingEntry,
    ) -> Result<Parts, AllocError>
        requires indexed { IsIndexed self.now.entries self.now.by_child self.now.by_folder self.now.by_name }
        requires free { find nat_cmp place self.now.entries ≡ None }
        ensures indexed { IfOk result (λ s. IsIndexed s.entries s.by_child s.by_folder s.by_name) }
        ensures entries { IfOk result (λ s. s.entries ≡ put nat_cmp place entry self.now.entries) }
    {
        let by_child = self
            .by_child
            .with(alloc, entry.child.0, place, entry.folder)?;
        let by_folder = self
            .by_folder
            .with(alloc, entry.folder.0, place, entry.child)?;
        let by_name = self
            .by_name
            .with(alloc, entry.folder.0, &entry.name, place, entry.child)?;
        let entries = self.entries.with(alloc, place, entry)?;
        Ok(Parts {
            entries,
            by_child,
            by_folder,
            by_name,
        })
    }

    // The first place of the child.
    fn first_place_of(&self, child: Oid) -> Option<u64>
        requires indexed { IsIndexed self.now.entries self.now.by_child self.now.by_folder self.now.by_name }
        ensures { result ≡ option_map (λ d. d.0)
            (find_by (λ d. true) (placed nat_cmp child_key (λ e. e.folder) child.0 self.now.entries)) }
    {
        match self.by_child.bucket(&child.0) {
            Some(folders) => first_place(folders),
            None => None,
        }
    }

    /// The child's first entry.
    pub fn first_entry(&self, child: Oid) -> Option<&FilingEntry>
        requires indexed { IsIndexed self.now.entries self.now.by_child self.now.by_folder self.now.by_name }
        ensures { option_copied result ≡ find_by (λ e. same e.child child) (map (λ e. e.1) self.now.entries) }
    {
        match self.first_place_of(child) {
            Some(place) => self.entries.get(&place),
            None => None,
        }
    }

    // The place of the child in the folder.
    fn place_under(&self, folder: Oid, child: Oid) -> Option<u64>
        requires indexed { IsIndexed self.now.entries self.now.by_child self.now.by_folder self.now.by_name }
        ensures { result ≡ option_map (λ d. d.0)
            (find_by (λ d. same d.1 folder) (placed nat_cmp child_key (λ e. e.folder) child.0 self.now.entries)) }
    {
        match self.by_child.bucket(&child.0) {
            Some(folders) => place_of(folders, folder),
            None => None,
        }
    }

    /// The child's entry in the folder.
    pub fn entry_under(&self, folder: Oid, child: Oid) -> Option<&FilingEntry>
        requires indexed { IsIndexed self.now.entries self.now.by_child self.now.by_folder self.now.by_name }
        ensures { option_copied result ≡ find_by (is_entry folder child) (map (λ e. e.1) self.now.entries) }
    {
        match self.place_under(folder, child) {
            Some(place) => self.entries.get(&place),
            None => None,
        }
    }

    // Whether in the place stands the entry of a folder.
    fn is_folder_at(&self, place: u64) -> bool
        ensures { result ≡ is_folder_at self.now.entries place }
    {
        match self.entries.get(&place) {
            Some(entry) => entry.is_folder,
            None => false,
        }
    }

    // Whether in one of the places stands the entry of a folder.
    fn has_folder_at(&self, places: &Map<u64, Oid>) -> bool
        ensures value { result ≡ list_any (λ e. is_folder_at self.now.entries e.0) places.now }
        ensures sorted { T (is_sorted nat_cmp places.now) }
    {
        let mut found = false;
        for entry in places.iter() {
            let at: &(u64, Oid) = entry;
            if self.is_folder_at(at.0) {
                found = true;
            }
        }
        found
    }

    /// Whether the child is filed as a folder.
    pub fn is_folder(&self, child: Oid) -> bool
        requires indexed { IsIndexed self.now.entries self.now.by_child self.now.by_folder self.now.by_name }
        ensures { result ≡ is_folder_in (map (λ e. e.1) self.now.entries) child }
    {
        match self.by_child.bucket(&child.0) {
            Some(places) => self.has_folder_at(places),
            None => false,
        }
    }

    // The entries without one that is there.
    fn without_entry(
        &self,
        alloc: Global,
        place: u64,
        entry: &FilingEntry,
    ) -> Result<Parts, AllocError>
        requires indexed { IsIndexed self.now.entries self.now.by_child self.now.by_folder self.now.by_name }
        requires there { find nat_cmp place self.now.entries ≡ Some entry.now }
        ensures indexed { IfOk result (λ s. IsIndexed s.entries s.by_child s.by_folder s.by_name) }
        ensures found { IfOk result (λ s. (p : ℕ) → find nat_cmp p s.entries
            ≡ (if p == place then None else find nat_cmp p self.now.entries)) }
    {
        let by_child = self.by_child.without(alloc, entry.child.0, &place)?;
        let by_folder = self.by_folder.without(alloc, entry.folder.0, &place)?;
        let by_name = self
            .by_name
            .without(alloc, entry.folder.0, &entry.name, place)?;
        let entries = self.entries.without(alloc, &place)?;
        Ok(Parts {
            entries,
            by_child,
            by_folder,
            by_name,
        })
    }

    // The entries without the one in the place.
    fn cleared(&self, alloc: Global, place: u64) -> Result<Parts, AllocError>
        requires indexed { IsIndexed self.now.entries self.now.by_child self.now.by_folder self.now.by_name }
        ensures indexed { IfOk result (λ s. IsIndexed s.entries s.by_child s.by_folder s.by_name) }
        ensures found { IfOk result (λ s. (p : ℕ) → find nat_cmp p s.entries
            ≡ (if p == place then None else find nat_cmp p self.now.entries)) }
    {
        match self.entries.get(&place) {
            Some(entry) => {
                let parts = self.without_entry(alloc, place, entry)?;
                Ok(parts)
            }
            None => {
                let parts = self.share(alloc)?;
                Ok(parts)
            }
        }
    }

    // The entries with this one in the place, or with none there.
    fn with_at(
        &self,
        alloc: Global,
        place: u64,
        new: Option<FilingEntry>,
    ) -> Result<Parts, AllocError>
        requires indexed { IsIndexed self.now.entries self.now.by_child self.now.by_folder self.now.by_name }
        ensures indexed { IfOk result (λ s. IsIndexed s.entries s.by_child s.by_folder s.by_name) }
        ensures found { IfOk result (λ s. (p : ℕ) → find nat_cmp p s.entries
            ≡ (if p == place then new else find nat_cmp p self.now.entries)) }
    {
        let cleared = self.cleared(alloc, place)?;
        match new {
            Some(entry) => {
                let parts = cleared.with_entry(alloc, place, entry)?;
                Ok(parts)
            }
            None => Ok(cleared),
        }
    }

    // What becomes of the entry in the place.
    fn edit_at(
        &self,
        alloc: Global,
        place: u64,
        edit: &Edit,
    ) -> Result<Option<FilingEntry>, AllocError>
        ensures { IfOk result (λ e. e ≡ option_and_then (edit_of edit.now) (find nat_cmp place self.now.entries)) }
    {
        match self.entries.get(&place) {
            Some(entry) => {
                let new = edit.applied(alloc, entry)?;
                Ok(new)
            }
            None => Ok(None),
        }
    }

    // The entries, the one in the place as the change makes it of what stands here.
    fn edited_one(
        &self,
        alloc: Global,
        parts: &Parts,
        place: u64,
        edit: &Edit,
    ) -> Result<Parts, AllocError>
        requires indexed { IsIndexed parts.now.entries parts.now.by_child parts.now.by_folder parts.now.by_name }
        ensures indexed { IfOk result (λ s. IsIndexed s.entries s.by_child s.by_folder s.by_name) }
        ensures found { IfOk result (λ s. (p : ℕ) → find nat_cmp p s.entries
            ≡ (if p == place then option_and_then (edit_of edit.now)
            (find nat_cmp place self.now.entries) else find nat_cmp p parts.now.entries)) }
    {
        let new = self.edit_at(alloc, place, edit)?;
        let changed = parts.with_at(alloc, place, new)?;
        Ok(changed)
    }

    // The entries, those in the places changed.
    fn edited_at(
        &self,
        alloc: Global,
        places: &Map<u64, Oid>,
        edit: &Edit,
    ) -> Result<Parts, AllocError>
        requires indexed { IsIndexed self.now.entries self.now.by_child self.now.by_folder self.now.by_name }
        ensures indexed { IfOk result (λ s. IsIndexed s.entries s.by_child s.by_folder s.by_name) }
        ensures found { IfOk result (λ s. (p : ℕ) → find nat_cmp p s.entries
            ≡ (if list_any (λ e. p == e.0) places.now then option_and_then (edit_of edit.now)
            (find nat_cmp p self.now.entries) else find nat_cmp p self.now.entries)) }
    {
        let begin = self.share(alloc)?;
        let mut parts = begin;
        for entry in places.iter() {
            let at: &(u64, Oid) = entry;
            parts = self.edited_one(alloc, &parts, at.0, edit)?;
        }
        Ok(parts)
    }

    /// The entries, those of the child changed.
    pub fn edited(&self, alloc: Global, child: Oid, edit: &Edit) -> Result<Parts, AllocError>
        requires indexed { IsIndexed self.now.entries self.now.by_child self.now.by_folder self.now.by_name }
        ensures indexed { IfOk result (λ s. IsIndexed s.entries s.by_child s.by_folder s.by_name) }
        ensures found { IfOk result (λ s. (p : ℕ) → find nat_cmp p s.entries
            ≡ option_and_then (edit_child edit.now child) (find nat_cmp p self.now.entries)) }
    {
        match self.by_child.bucket(&child.0) {
            Some(places) => {
                let parts = self.edited_at(alloc, places, edit)?;
                Ok(parts)
            }
            None => {
                let parts = self.share(alloc)?;
                Ok(parts)
            }
        }
    }
}
