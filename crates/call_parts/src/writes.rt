//! The arguments of writes, one record a call (CMIS 1.1, section 2.2).
ghost use Rattle.std.specs.Prelude.{◌≡◌};

use crate::place::Place;
use cm_base::copies::Copies;
use cm_base::items::Items;
use cm_base::text::{Text, Texts};
use cm_types::given::Givens;
use std::alloc::{AllocError, Global};

/// A principal and the permissions that a request names for him, as texts.
#[derive(Drop)]
pub struct AceRequest {
    pub principal: Text,
    pub permissions: Texts,
}

/// Requests for entries in their order.
pub type AceRequests = Items<AceRequest>;

/// Makes a folder in the addressed one (section 2.2.4.3).
#[derive(Drop)]
pub struct CreateFolder {
    pub place: Place,
    pub properties: Givens,
    /// The ids of policies to apply to the new folder.
    pub policies: Texts,
    /// Entries taken from the new folder's access control list, and entries added to it, in this order.
    pub remove: AceRequests,
    pub add: AceRequests,
    /// Whether the reply shows the properties in succinct form.
    pub succinct: bool,
}

impl Copies for AceRequest {
    fn copied(&self, alloc: Global) -> Result<AceRequest, AllocError> {
        Ok(AceRequest {
            principal: self.principal.copied(alloc)?,
            permissions: self.permissions.copied(alloc)?,
        })
    }
}
