//! Lists in the order of their members' numbers.
ghost use Rattle.std.specs.Prelude.{◌≡◌, ℕ, ◌==◌, ◌<◌, nat_lt, List, [], ◌∷◌, ◌++◌, All, map, find, filter, not, is_some, length, if◌then◌else◌, true, IfOk, option_copied};
ghost use Rattle.cm_map.specs.Keyed.{keyed, Rises};
ghost use Rattle.cm_map.specs.Rests.{rest};

use crate::iter::Iter;
use crate::map::Map;
use cm_base::access::AccessList;
use cm_base::content::{Content, Rendition};
use cm_base::object::Object;
use cm_base::series::Series;
use std::alloc::{AllocError, Global};
use std::marker::Model;

/// What has a number.
pub trait Numbered: Drop {
    ghost number: { Self → ℕ };

    /// Its number.
    fn number(&self) -> u64
        ensures { result ≡ number self.now };
}

impl Numbered for Object {
    ghost number = { λ x. x.id.0 };

    fn number(&self) -> u64 {
        self.id.0
    }
}

impl Numbered for Series {
    ghost number = { λ s. s.id.0 };

    fn number(&self) -> u64 {
        self.id.0
    }
}

impl Numbered for AccessList {
    ghost number = { λ l. l.at.0 };

    fn number(&self) -> u64 {
        self.at.0
    }
}

impl Numbered for Content {
    ghost number = { λ c. c.of.0 };

    fn number(&self) -> u64 {
        self.of.0
    }
}

impl Numbered for Rendition {
    ghost number = { λ d. d.id.0 };

    fn number(&self) -> u64 {
        self.id.0
    }
}

/// A list whose members' numbers rise. A change leaves the old list as it was, and shares with it all but a few blocks.
#[derive(Drop)]
pub struct Table<V: Numbered> {
    entries: Map<u64, V>,
}

impl<V: Numbered> Model for Table<V> {
    ghost use Rattle.std.specs.Prelude.{List, map, ◌≡◌};
    ghost use Rattle.cm_map.specs.Keyed.{keyed};

    ghost Value = { List V };

    ghost view = { λ t. map (λ e. e.1) t.entries };

    ghost invariant = { λ t. t.entries ≡ keyed V.number (map (λ e. e.1) t.entries) };
}

impl<V: Numbered> Table<V> {
    /// The empty list, which takes no memory.
    pub fn empty(alloc: Global) -> Table<V>
        ensures { result ≡ [] }
    {
        Table {
            entries: Map::empty(alloc),
        }
    }

    /// The number of members.
    pub fn len(&self) -> u64
        ensures len { result ≡ length self.now }
        ensures rising { Rises V.number self.now }
    {
        self.entries.len()
    }

    /// The member with this number. It takes no memory, and compares about as many numbers as the length has binary digits.
    pub fn get(&self, number: u64) -> Option<&V>
        ensures { option_copied result ≡ find (λ x. V.number x == number) self.now }
    {
        self.entries.get(&number)
    }

    /// The list with a member at its end, whose number is above all others.
    pub fn with_last(&self, alloc: Global, member: V) -> Result<Table<V>, AllocError>
        requires above { All (λ x. V.number x < V.number member) self.now }
        ensures { IfOk result (λ t. t ≡ self.now ++ member ∷ []) }
    {
        let number = member.number();
        let entries = self.entries.with(alloc, number, member)?;
        Ok(Table { entries })
    }

    /// The list with a member in place of the one that has its number.
    pub fn with_member(&self, alloc: Global, member: V) -> Result<Table<V>, AllocError>
        requires there { is_some (find (λ x. V.number x == V.number member) self.now) ≡ true }
        ensures { IfOk result (λ t. t ≡ map (λ x. if V.number x == V.number member then member else x) self.now) }
    {
        let _rising = self.entries.len();
        let number = member.number();
        let entries = self.entries.with(alloc, number, member)?;
        Ok(Table { entries })
    }

    /// The list with the member in its place by its number, in place of one that has its number.
    pub fn with(&self, alloc: Global, member: V) -> Result<Table<V>, AllocError>
        ensures { IfOk result (λ t. t ≡
            filter (λ x. nat_lt (V.number x) (V.number member)) self.now
            ++ member ∷ filter (λ x. nat_lt (V.number member) (V.number x)) self.now) }
    {
        let _rising = self.entries.len();
        let number = member.number();
        let entries = self.entries.with(alloc, number, member)?;
        Ok(Table { entries })
    }

    /// The list without the member that has this number, or the same where none has it.
    pub fn without(&self, alloc: Global, number: u64) -> Result<Table<V>, AllocError>
        ensures { IfOk result (λ t. t ≡ filter (λ x. not (V.number x == number)) self.now) }
    {
        let entries = self.entries.without(alloc, &number)?;
        Ok(Table { entries })
    }

    /// The same list once more, which shares every member.
    pub fn share(&self, alloc: Global) -> Result<Table<V>, AllocError>
        ensures { IfOk result (λ t. t ≡ self.now) }
    {
        let entries = self.entries.share(alloc)?;
        Ok(Table { entries })
    }

    /// The members in order, each behind its number; no memory is taken.
    pub fn iter(&self) -> Iter<'_, u64, V>
        ensures { map (λ e. e.1) (rest result) ≡ self.now }
    {
        self.entries.iter()
    }
}
