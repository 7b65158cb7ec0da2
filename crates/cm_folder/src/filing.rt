//! The filing of a repository.
ghost use Rattle.std.specs.Prelude.{◌≡◌, ◌+◌, ◌-◌, ◌<◌, ◌≤◌, not, true, Option, None, Some, find, option_copied, option_map, unwrap_or, List, [], map, filter_map, length, IfOk, false};
ghost use Rattle.std.specs.List.{list_any};
ghost use Rattle.core.specs.Ordering.{nat_cmp};
ghost use Rattle.core.specs.FinMap.Entries.{is_sorted};
ghost use Rattle.std.specs.Prelude.{T};
ghost use Rattle.cmis_spec.specs.Repository.{same, levels_up};
ghost use Rattle.cm_folder.specs.Filings.{is_entry, is_filed_in, is_name_taken, is_under_in, folders_up_in, depth_in, folder_of, filed_with, child_named, children_in, folders_in, unfiled, shifted, retold, edit_child};

use crate::edit::Edit;
use crate::entry::FilingEntry;
use crate::parts::Parts;
use cm_base::copies::Copies;
use cm_base::number::Oid;
use cm_base::text::Text;
use cm_map::map::Map;
use std::alloc::{AllocError, Global};
use std::marker::Model;

/// Which child stands in which folder, seen as the list of the entries in the order in which they were made.
pub struct Filing {
    pub(crate) parts: Parts,
    pub(crate) next: u64,
}

// That a filing goes is proved here once, and not at each place where one goes.
impl Drop for Filing {
    fn drop(self) {
        let Filing { parts: _, next: _ } = self;
    }
}

impl Model for Filing {
    ghost use Rattle.std.specs.Prelude.{List, map};
    ghost use Rattle.cm_folder.specs.declared.entry.FilingEntry.{FilingEntry};
    ghost use Rattle.cm_folder.specs.Places.{IsFiling};

    ghost Value = { List FilingEntry };

    ghost view = { λ s. map (λ e. e.1) s.parts.entries };

    ghost invariant = { λ s. IsFiling s.parts.entries s.next s.parts.by_child s.parts.by_folder s.parts.by_name };
}

// One of the folders is this one.
fn has_folder(folders: &Map<u64, Oid>, folder: Oid) -> bool
    ensures value { result ≡ list_any (λ e. same e.1 folder) folders.now }
    ensures sorted { T (is_sorted nat_cmp folders.now) }
{
    let mut found = false;
    for entry in folders.iter() {
        let at: &(u64, Oid) = entry;
        if at.1.0 == folder.0 {
            found = true;
        }
    }
    found
}

// The first of the children.
fn first_child(children: &Map<u64, Oid>) -> Option<Oid>
    ensures value { result ≡ option_map (λ e. e.1) (find (λ e. true) children.now) }
    ensures sorted { T (is_sorted nat_cmp children.now) }
{
    let mut entries = children.iter();
    match entries.next() {
        Some(entry) => Some(entry.1),
        None => None,
    }
}

// One of the children is another one.
fn has_other(children: &Map<u64, Oid>, child: Oid) -> bool
    ensures value { result ≡ list_any (λ e. not (same e.1 child)) children.now }
    ensures sorted { T (is_sorted nat_cmp children.now) }
{
    let mut found = false;
    for entry in children.iter() {
        let at: &(u64, Oid) = entry;
        if at.1.0 != child.0 {
            found = true;
        }
    }
    found
}

// The most folders on a way up, the root counted.
#[tactic(auto, unfolding(cmis_spec::specs::Repository::levels_up))]
pub(crate) fn levels() -> u64
    ensures value { result ≡ levels_up }
    ensures bound { result < 50 }
{
    49
}

impl Filing {
    /// No entries, which take no memory.
    pub fn empty(alloc: Global) -> Filing
        ensures { result ≡ [] }
    {
        Filing {
            parts: Parts::empty(alloc),
            next: 0,
        }
    }

    /// The same filing once more, by sharing.
    pub fn share(&self, alloc: Global) -> Result<Filing, AllocError>
        ensures { IfOk result (λ f. f ≡ self.now) }
    {
        let parts = self.parts.share(alloc)?;
        Ok(Filing {
            parts,
            next: self.next,
        })
    }

    /// Whether the child is filed in the folder. It takes no memory.
    pub fn is_filed(&self, folder: Oid, child: Oid) -> bool
        ensures { result ≡ is_filed_in self.now folder child }
    {
        match self.parts.by_child.bucket(&child.0) {
            Some(folders) => has_folder(folders, folder),
            None => false,
        }
    }

    /// The folder of the child's first entry; none where it is filed nowhere. It takes no memory.
    pub fn folder_of(&self, child: Oid) -> Option<Oid>
        ensures { result ≡ folder_of self.now child }
    {
        match self.first_entry(child) {
            Some(entry) => Some(entry.folder),
            None => None,
        }
    }

    // The child's first entry.
    pub(crate) fn first_entry(&self, child: Oid) -> Option<&FilingEntry>
        ensures { option_copied result ≡ find (λ e. same e.child child) self.now }
    {
        self.parts.first_entry(child)
    }

    // The child's entry in the folder.
    pub(crate) fn entry_under(&self, folder: Oid, child: Oid) -> Option<&FilingEntry>
        ensures { option_copied result ≡ find (is_entry folder child) self.now }
    {
        self.parts.entry_under(folder, child)
    }

    // Whether the folder is one of so many, from another one up.
    fn stands_over(&self, levels: u64, folder: Oid, from: Oid) -> bool
        ensures { result ≡ list_any (same folder) (folders_up_in levels self.now from) }
    {
        if levels == 0 {
            return false;
        }
        if folder.0 == from.0 {
            return true;
        }
        match self.folder_of(from) {
            Some(up) => self.stands_over(levels - 1, folder, up),
            None => false,
        }
    }

    /// Whether the folder is the top one, or stands below it. It takes no memory.
    pub fn is_under(&self, folder: Oid, top: Oid) -> bool
        ensures { result ≡ is_under_in self.now folder top }
    {
        self.stands_over(levels(), top, folder)
    }

    // How many folders stand on the way up, this one counted.
    fn count_up(&self, levels: u64, folder: Oid) -> u64
        ensures value { result ≡ length (folders_up_in levels self.now folder) }
        ensures bound { result ≤ levels }
    {
        if levels == 0 {
            return 0;
        }
        match self.folder_of(folder) {
            Some(up) => 1 + self.count_up(levels - 1, up),
            None => 1,
        }
    }

    /// How many entries lie between the root and the folder. It takes no memory.
    pub fn depth(&self, folder: Oid) -> u64
        ensures value { result ≡ depth_in self.now folder }
        ensures bound { result < 50 }
    {
        self.count_up(levels(), folder).saturating_sub(1)
    }

    /// Whether another child of the folder has the name. It takes no memory.
    pub fn is_taken(&self, folder: Oid, child: Oid, name: &Text) -> bool
        ensures { result ≡ is_name_taken self.now folder child name.now }
    {
        match self.parts.by_name.under(folder.0, name) {
            Some(children) => has_other(children, child),
            None => false,
        }
    }

    /// The first child of the folder that has the name. It takes no memory.
    pub fn child_named(&self, folder: Oid, name: &Text) -> Option<Oid>
        ensures { result ≡ child_named self.now folder name.now }
    {
        match self.parts.by_name.under(folder.0, name) {
            Some(children) => first_child(children),
            None => None,
        }
    }

    /// What is filed in the folder, by the places of the entries. It takes no memory.
    pub fn children(&self, folder: Oid) -> Option<&Map<u64, Oid>>
        ensures { map (λ e. e.1) (unwrap_or (option_copied result) []) ≡ children_in self.now folder }
    {
        match self.parts.by_folder.bucket(&folder.0) {
            Some(children) => {
                let _sorted = children.len();
                Some(children)
            }
            None => None,
        }
    }

    /// The folders of the child, by the places of the entries. It takes no memory.
    pub fn folders(&self, child: Oid) -> Option<&Map<u64, Oid>>
        ensures { map (λ e. e.1) (unwrap_or (option_copied result) []) ≡ folders_in self.now child }
    {
        match self.parts.by_child.bucket(&child.0) {
            Some(folders) => {
                let _sorted = folders.len();
                Some(folders)
            }
            None => None,
        }
    }

    /// The filing with an entry at the end, whatever is filed. It judges nothing; want of memory where no place is left.
    pub fn with_entry(&self, alloc: Global, entry: FilingEntry) -> Result<Filing, AllocError>
        ensures { IfOk result (λ f. f ≡ filed_with self.now entry) }
    {
        let place = self.next;
        if place == u64::MAX {
            return Err(AllocError);
        }
        let parts = self.parts.with_entry(alloc, place, entry)?;
        Ok(Filing {
            parts,
            next: place + 1,
        })
    }

    // The filing with the child's entries changed.
    fn edited(&self, alloc: Global, child: Oid, edit: &Edit) -> Result<Filing, AllocError>
        ensures { IfOk result (λ f. f ≡ filter_map (edit_child edit.now child) self.now) }
    {
        let parts = self.parts.edited(alloc, child, edit)?;
        Ok(Filing {
            parts,
            next: self.next,
        })
    }

    /// The filing without the child in the folder. It judges nothing.
    pub fn taken_out(&self, alloc: Global, folder: Oid, child: Oid) -> Result<Filing, AllocError>
        ensures { IfOk result (λ f. f ≡ unfiled self.now folder child) }
    {
        let filing = self.edited(alloc, child, &Edit::TakeOut(folder))?;
        Ok(filing)
    }

    /// The filing with the child in another folder. It judges nothing.
    pub fn put_in(
        &self,
        alloc: Global,
        child: Oid,
        source: Oid,
        target: Oid,
    ) -> Result<Filing, AllocError>
        ensures { IfOk result (λ f. f ≡ shifted self.now child source target) }
    {
        let filing = self.edited(alloc, child, &Edit::Place(source, target))?;
        Ok(filing)
    }

    /// The filing with the child told to be a folder or none, and under this name. It judges nothing.
    pub fn retold(
        &self,
        alloc: Global,
        child: Oid,
        is_folder: bool,
        name: &Text,
    ) -> Result<Filing, AllocError>
        ensures { IfOk result (λ f. f ≡ retold self.now child is_folder name.now) }
    {
        let edit = Edit::Tell(is_folder, name.copied(alloc)?);
        let filing = self.edited(alloc, child, &edit)?;
        Ok(filing)
    }
}
