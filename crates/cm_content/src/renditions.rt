//! The renditions of a repository.
ghost use Rattle.std.specs.Prelude.{◌≡◌, ◌==◌, ◌<◌, ◌++◌, ◌∷◌, [], All, map, filter, find, filter_map, not, IfOk, OnOk, T};
ghost use Rattle.std.specs.Option.{option_copied};
ghost use Rattle.std.specs.List.{list_any};
ghost use Rattle.core.specs.Ordering.{nat_cmp};
ghost use Rattle.core.specs.FinMap.Entries.{is_sorted};
ghost use Rattle.cm_map.specs.Parts.{pointee};
ghost use Rattle.cmis_spec.specs.Repository.{same};
ghost use Rattle.cm_content.specs.Indexed.{IsIndexOf};

use cm_base::content::Rendition;
use cm_base::number::Oid;
use cm_map::buckets::Buckets;
use cm_map::map::Map;
use cm_map::table::Table;
use std::alloc::{AllocError, Global};
use std::marker::Model;

/// The renditions of documents (CMIS 1.1, section 2.1.4.2), seen as their list in the order of their numbers. A change leaves the
/// old list as it was, and shares with it all but a few blocks.
pub struct Renditions {
    table: Table<Rendition>,
    by_document: Buckets<u64, u64, ()>,
}

// That renditions go is proved here once, and not at each place where they go.
impl Drop for Renditions {
    fn drop(self) {
        let Renditions {
            table: _,
            by_document: _,
        } = self;
    }
}

impl Model for Renditions {
    ghost use Rattle.std.specs.Prelude.{List};
    ghost use Rattle.cm_base.specs.declared.content.Rendition.{Rendition};
    ghost use Rattle.cm_content.specs.Indexed.{IsIndexOf};

    ghost Value = { List Rendition };

    ghost view = { λ s. s.table };

    ghost invariant = { λ s. IsIndexOf s.table s.by_document };
}

// The numbers in their order.
fn numbers_of(alloc: Global, numbers: &Map<u64, ()>) -> Result<Vec<u64>, AllocError>
    ensures value { IfOk result (λ all. all.items ≡ map (λ e. e.0) numbers.now) }
    ensures sorted { T (is_sorted nat_cmp numbers.now) }
{
    let mut all = Vec::new(alloc);
    for entry in numbers.iter() {
        let at: &(u64, ()) = entry;
        all.push(at.0)?;
    }
    Ok(all)
}

impl Renditions {
    /// No renditions, which take no memory.
    pub fn empty(alloc: Global) -> Renditions
        ensures { result ≡ [] }
    {
        Renditions {
            table: Table::empty(alloc),
            by_document: Buckets::empty(alloc),
        }
    }

    /// The same list once more, which shares every rendition.
    pub fn share(&self, alloc: Global) -> Result<Renditions, AllocError>
        ensures { IfOk result (λ l. l ≡ self.now) }
    {
        let table = self.table.share(alloc)?;
        let by_document = self.by_document.share(alloc)?;
        Ok(Renditions { table, by_document })
    }

    /// The rendition with this number. It takes no memory, and compares about as many numbers as the length has binary digits.
    pub fn get(&self, number: Oid) -> Option<&Rendition>
        ensures { option_copied result ≡ find (λ d. same d.id number) self.now }
    {
        self.table.get(number.0)
    }

    /// The list with a rendition at its end, whose number is above all others.
    pub fn with_last(&self, alloc: Global, rendition: Rendition) -> Result<Renditions, AllocError>
        requires above { All (λ d. d.id.0 < rendition.id.0) self.now }
        ensures { IfOk result (λ l. l ≡ self.now ++ rendition ∷ []) }
    {
        let by_document = self
            .by_document
            .with(alloc, rendition.of.0, rendition.id.0, ())?;
        let table = self.table.with_last(alloc, rendition)?;
        Ok(Renditions { table, by_document })
    }

    // The index without the rendition that has this number.
    fn index_without(&self, alloc: Global, number: u64) -> Result<Buckets<u64, u64, ()>, AllocError>
        ensures { IfOk result (λ s. IsIndexOf (filter (λ d. not (d.id.0 == number)) self.now) s) }
    {
        match self.table.get(number) {
            Some(rendition) => {
                let index = self.by_document.without(alloc, rendition.of.0, &number)?;
                Ok(index)
            }
            None => {
                let index = self.by_document.share(alloc)?;
                Ok(index)
            }
        }
    }

    // The list without the rendition that has this number, or the same where none has it.
    fn without(&self, alloc: Global, number: u64) -> Result<Renditions, AllocError>
        ensures { IfOk result (λ l. l ≡ filter (λ d. not (d.id.0 == number)) self.now) }
    {
        let by_document = self.index_without(alloc, number)?;
        let table = self.table.without(alloc, number)?;
        Ok(Renditions { table, by_document })
    }

    // The list without the renditions that have these numbers.
    fn without_all(&self, alloc: Global, numbers: &[u64]) -> Result<Renditions, AllocError>
        ensures { IfOk result (λ l. l
            ≡ filter (λ d. not (list_any (λ q. d.id.0 == q) numbers.now)) self.now) }
    {
        let begin = self.share(alloc)?;
        let mut left = begin;
        for number in numbers {
            left = left.without(alloc, *number)?;
        }
        Ok(left)
    }

    /// All renditions of the document gone, as where it is deleted. It looks at them and at a bounded number of others.
    pub fn without_document(&self, alloc: Global, document: Oid) -> Result<Renditions, AllocError>
        ensures { IfOk result (λ l. l ≡ filter (λ d. not (same d.of document)) self.now) }
    {
        let _rising = self.table.len();
        match self.by_document.bucket(&document.0) {
            Some(numbers) => {
                let gone = numbers_of(alloc, numbers)?;
                let left = self.without_all(alloc, &gone)?;
                Ok(left)
            }
            None => {
                let left = self.share(alloc)?;
                Ok(left)
            }
        }
    }

    // Adds the rendition that has the number.
    fn add_found<'a>(
        &'a self,
        all: &mut Vec<&'a Rendition>,
        at: &(u64, ()),
    ) -> Result<(), AllocError>
        ensures { OnOk result (map pointee all.new.items ≡ map pointee all.old.items
            ++ filter_map (λ e. find (λ d. d.id.0 == e.0) self.now) (at.now ∷ [])) }
    {
        match self.table.get(at.0) {
            Some(rendition) => {
                all.push(rendition)?;
                Ok(())
            }
            None => Ok(()),
        }
    }

    // The renditions that have these numbers, in their order.
    fn found<'a>(
        &'a self,
        alloc: Global,
        numbers: &Map<u64, ()>,
    ) -> Result<Vec<&'a Rendition>, AllocError>
        ensures value { IfOk result (λ all. map pointee all.items
            ≡ filter_map (λ e. find (λ d. d.id.0 == e.0) self.now) numbers.now) }
        ensures sorted { T (is_sorted nat_cmp numbers.now) }
    {
        let mut all = Vec::new(alloc);
        for entry in numbers.iter() {
            let at: &(u64, ()) = entry;
            self.add_found(&mut all, at)?;
        }
        Ok(all)
    }

    /// The renditions of the document, in the order of their numbers. It looks at them and at a bounded number of others.
    pub fn of_document(&self, alloc: Global, document: Oid) -> Result<Vec<&Rendition>, AllocError>
        ensures { IfOk result (λ all. map pointee all.items ≡ filter (λ d. same d.of document) self.now) }
    {
        let _rising = self.table.len();
        match self.by_document.bucket(&document.0) {
            Some(numbers) => {
                let all = self.found(alloc, numbers)?;
                Ok(all)
            }
            None => Ok(Vec::new(alloc)),
        }
    }
}
