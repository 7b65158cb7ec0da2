//! Users and groups.
ghost use Rattle.std.specs.Prelude.{◌≡◌};

use crate::copies::Copies;
use crate::items::Items;
use crate::text::{Text, Texts};
use std::alloc::{AllocError, Global};

/// A user of the repository.
#[derive(Drop)]
pub struct User {
    pub name: Text,
    pub secret: Text,
}

/// The users in their order; the first is the administrator.
pub type Users = Items<User>;

/// A group of users.
#[derive(Drop)]
pub struct Group {
    pub name: Text,
    pub members: Texts,
}

/// The groups in their order.
pub type Groups = Items<Group>;

impl Copies for User {
    fn copied(&self, alloc: Global) -> Result<User, AllocError> {
        Ok(User {
            name: self.name.copied(alloc)?,
            secret: self.secret.copied(alloc)?,
        })
    }
}

impl Copies for Group {
    fn copied(&self, alloc: Global) -> Result<Group, AllocError> {
        Ok(Group {
            name: self.name.copied(alloc)?,
            members: self.members.copied(alloc)?,
        })
    }
}
