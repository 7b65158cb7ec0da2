//! The objects of a repository.
ghost use Rattle.std.specs.Prelude.{◌≡◌, ◌==◌, ◌<◌, ◌||◌, ◌&&◌, List, [], ◌∷◌, ◌++◌, All, map, find, filter, not, is_some, length, if◌then◌else◌, true, IfOk};
ghost use Rattle.std.specs.Option.{option_copied};
ghost use Rattle.std.specs.List.{list_any};
ghost use Rattle.cm_map.specs.Keyed.{Rises};
ghost use Rattle.cm_objects.specs.declared.index_key.IndexKey.{IndexKey};
ghost use Rattle.cm_base.specs.declared.number.Oid.{Oid};
ghost use Rattle.cm_objects.specs.Pairs.{has_pair};
ghost use Rattle.cmis_spec.specs.Repository.{is_of_type};
ghost use Rattle.cmis_spec.specs.Removal.{ends_of, is_id_of};
ghost use Rattle.cm_objects.specs.Indexed.{keys_at, is_pair_of, is_keyed};

use crate::index::Index;
use crate::index_key::IndexKey;
use crate::keys::{Keys, keys_of};
use crate::pairs::{with_pairs, without_pairs};
use cm_base::copies::Copies;
use cm_base::items::Items;
use cm_base::number::{Oid, Oids};
use cm_base::object::Object;
use cm_base::text::Text;
use cm_map::table::Table;
use std::alloc::{AllocError, Global};
use std::marker::Model;

/// The objects of a repository in the order of their numbers, with an index of what they are looked up by. A change leaves
/// the old list as it was, and shares with it all but a few blocks.
#[derive(Drop)]
pub struct Objects {
    table: Table<Object>,
    index: Index,
}

impl Model for Objects {
    ghost use Rattle.std.specs.Prelude.{List};
    ghost use Rattle.cm_base.specs.declared.object.Object.{Object};
    ghost use Rattle.cm_objects.specs.Indexed.{IsIndexOf};

    ghost Value = { List Object };

    ghost view = { λ s. s.table };

    ghost invariant = { λ s. IsIndexOf s.table s.index };
}

impl Objects {
    /// No objects, which take no memory.
    pub fn empty(alloc: Global) -> Objects
        ensures { result ≡ [] }
    {
        Objects {
            table: Table::empty(alloc),
            index: Index::empty(alloc),
        }
    }

    /// The number of objects.
    pub fn len(&self) -> u64
        ensures len { result ≡ length self.now }
        ensures rising { Rises (λ x. x.id.0) self.now }
    {
        self.table.len()
    }

    /// The object with this number. It takes no memory, and compares about as many numbers as the length has binary digits.
    pub fn get(&self, number: u64) -> Option<&Object>
        ensures { option_copied result ≡ find (λ x. x.id.0 == number) self.now }
    {
        self.table.get(number)
    }

    // The keys of the object with this number.
    fn keys_at(&self, alloc: Global, n: Oid) -> Result<Keys, AllocError>
        ensures { IfOk result (λ ks. ks ≡ keys_at self.now n) }
    {
        match self.table.get(n.0) {
            Some(x) => keys_of(alloc, x),
            None => Ok(Items::new(alloc)),
        }
    }

    // The index without the pairs of the object with this number.
    fn index_without(&self, alloc: Global, n: Oid) -> Result<Index, AllocError>
        ensures { IfOk result (λ s. (p : IndexKey × Oid) →
            has_pair p s ≡ is_keyed (filter (λ x. not (x.id.0 == n.0)) self.now) p) }
    {
        let _rising = self.table.len();
        let keys = self.keys_at(alloc, n)?;
        let index = self.index.share(alloc)?;
        let less = without_pairs(alloc, index, &keys, n)?;
        Ok(less)
    }

    // The index with these keys of the object with this number, in place of the old ones. Where they are the same, it is shared.
    fn index_with(&self, alloc: Global, n: Oid, keys: &Keys) -> Result<Index, AllocError>
        ensures { IfOk result (λ s. (p : IndexKey × Oid) → has_pair p s
            ≡ (is_keyed (filter (λ x. not (x.id.0 == n.0)) self.now) p || is_pair_of n keys.now p)) }
    {
        let _rising = self.table.len();
        let old = self.keys_at(alloc, n)?;
        if old.as_slice() == keys.as_slice() {
            let same = self.index.share(alloc)?;
            return Ok(same);
        }
        let less = self.index_without(alloc, n)?;
        let index = with_pairs(alloc, less, keys, n)?;
        Ok(index)
    }

    /// The list with an object at its end, whose number is above all others.
    pub fn with_last(&self, alloc: Global, member: Object) -> Result<Objects, AllocError>
        requires above { All (λ x. x.id.0 < member.id.0) self.now }
        ensures { IfOk result (λ t. t ≡ self.now ++ member ∷ []) }
    {
        let keys = keys_of(alloc, &member)?;
        let old = self.index.share(alloc)?;
        let index = with_pairs(alloc, old, &keys, member.id)?;
        let table = self.table.with_last(alloc, member)?;
        Ok(Objects { table, index })
    }

    /// The list with an object in place of the one that has its number.
    pub fn with_member(&self, alloc: Global, member: Object) -> Result<Objects, AllocError>
        requires there { is_some (find (λ x. x.id.0 == member.id.0) self.now) ≡ true }
        ensures { IfOk result (λ t. t ≡ map (λ x. if x.id.0 == member.id.0 then member else x) self.now) }
    {
        let keys = keys_of(alloc, &member)?;
        let index = self.index_with(alloc, member.id, &keys)?;
        let table = self.table.with_member(alloc, member)?;
        Ok(Objects { table, index })
    }

    /// The list without the object that has this number, or the same where none has it.
    pub fn without(&self, alloc: Global, number: u64) -> Result<Objects, AllocError>
        ensures { IfOk result (λ t. t ≡ filter (λ x. not (x.id.0 == number)) self.now) }
    {
        let index = self.index_without(alloc, Oid(number))?;
        let table = self.table.without(alloc, number)?;
        Ok(Objects { table, index })
    }

    /// The numbers of the objects that name this one as an end, rising. It looks at them and at a bounded number of others.
    pub fn tied(&self, alloc: Global, n: Oid) -> Result<Oids, AllocError>
        ensures { IfOk result (λ ns. ns ≡ map (λ x. x.id) (filter (λ x. list_any (is_id_of n) (ends_of x)) self.now)) }
    {
        let _rising = self.table.len();
        let ids = self.index.of_key(alloc, &IndexKey::End(n))?;
        Ok(ids)
    }

    /// The numbers of the objects that have this type, or have it as a secondary type, rising. It looks at them and at a bounded
    /// number of others.
    pub fn of_type(&self, alloc: Global, id: &Text) -> Result<Oids, AllocError>
        ensures { IfOk result (λ ns. ns ≡ map (λ x. x.id) (filter (is_of_type id.now) self.now)) }
    {
        let _rising = self.table.len();
        let key = IndexKey::Kind(id.copied(alloc)?);
        let ids = self.index.of_key(alloc, &key)?;
        Ok(ids)
    }

    /// The same list once more, which shares every object.
    pub fn share(&self, alloc: Global) -> Result<Objects, AllocError>
        ensures { IfOk result (λ t. t ≡ self.now) }
    {
        let table = self.table.share(alloc)?;
        let index = self.index.share(alloc)?;
        Ok(Objects { table, index })
    }
}
