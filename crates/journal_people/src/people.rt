//! The people of a journal.
ghost use Rattle.std.specs.Prelude.{◌≡◌, map, IfOk};
ghost use Rattle.std.specs.Option.{option_copied};
ghost use Rattle.cmis_spec.specs.Well.{HasGroups};
ghost use Rattle.journal_people.specs.Tests.{people_of};
ghost use Rattle.journal_people.specs.Meetings.{lacking, same_administrator, same_people};

use crate::groups::{has_groups, same_groups};
use crate::names::{administrator_of, first_lacking, same_names};
use cm_base::copies::Copies;
use cm_base::items::Items;
use cm_base::text::{Text, Texts};
use cm_base::user::{Groups, User, Users};
use std::alloc::{AllocError, Global};
use std::marker::Model;

/// The names of the users in their order, the first of them the administrator's, and the groups, which are such as these users may have.
/// Secrets are never part of it.
#[derive(Drop)]
pub struct People {
    names: Texts,
    groups: Groups,
}

impl Model for People {
    ghost use Rattle.cmis_spec.specs.Well.{HasGroups};
    ghost use Rattle.journal_people.specs.Told.{PeopleTold};

    ghost Value = { PeopleTold };

    ghost view = { λ p. record { names = p.names; groups = p.groups } };

    ghost invariant = { λ p. HasGroups p.names p.groups };
}

fn names_of(alloc: Global, users: &[User]) -> Result<Texts, AllocError>
    ensures { IfOk result (λ names. names ≡ map (λ u. u.name) users.now) }
{
    let mut names = Items::new(alloc);
    for user in users {
        names.push(user.name.copied(alloc)?)?;
    }
    Ok(names)
}

impl People {
    /// Users of these names, who may have these groups.
    pub fn new(names: Texts, groups: Groups) -> People
        requires well { HasGroups names groups }
        ensures { result ≡ record { names = names; groups = groups } }
    {
        People { names, groups }
    }

    /// Users of these names, where they may have these groups. Takes no memory.
    pub fn checked(names: Texts, groups: Groups) -> Option<People>
        ensures { result ≡ people_of names groups }
    {
        if has_groups(names.as_slice(), groups.as_slice()) {
            Some(People::new(names, groups))
        } else {
            None
        }
    }

    /// The names of these users, who may have these groups.
    pub fn of_users(alloc: Global, users: &Users, groups: &Groups) -> Result<People, AllocError>
        requires well { HasGroups (map (λ u. u.name) users.now) groups.now }
        ensures { IfOk result (λ p. p ≡ record { names = map (λ u. u.name) users.now; groups = groups.now }) }
    {
        let names = names_of(alloc, users.as_slice())?;
        let groups = groups.copied(alloc)?;
        Ok(People::new(names, groups))
    }

    /// The names of the users; the first is the administrator.
    pub fn names(&self) -> &Texts
        ensures value { result.now ≡ self.now.names }
        ensures well { HasGroups self.now.names self.now.groups }
    {
        &self.names
    }

    /// The groups.
    pub fn groups(&self) -> &Groups
        ensures value { result.now ≡ self.now.groups }
        ensures well { HasGroups self.now.names self.now.groups }
    {
        &self.groups
    }

    /// Whether both have the same names and the same groups, each in the same order.
    pub fn is(&self, asked: &People) -> bool
        ensures { result ≡ same_people self.now asked.now }
    {
        same_names(self.names.as_slice(), asked.names.as_slice())
            && same_groups(self.groups.as_slice(), asked.groups.as_slice())
    }

    /// Whether both have the same administrator.
    pub fn has_administrator_of(&self, asked: &People) -> bool
        ensures { result ≡ same_administrator self.now asked.now }
    {
        administrator_of(self.names.as_slice()) == administrator_of(asked.names.as_slice())
    }

    /// The first of these names that the others lack.
    pub fn lacking(&self, asked: &People) -> Option<&Text>
        ensures { option_copied result ≡ lacking self.now asked.now }
    {
        first_lacking(self.names.as_slice(), asked.names.as_slice())
    }
}

impl Copies for People {
    fn copied(&self, alloc: Global) -> Result<People, AllocError> {
        let names = self.names.copied(alloc)?;
        let groups = self.groups.copied(alloc)?;
        Ok(People { names, groups })
    }
}
