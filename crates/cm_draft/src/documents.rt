//! The changes of which new documents are made: an object of a series, policies, and a content.
ghost use Rattle.std.specs.Prelude.{◌≡◌, ◌+◌, ◌<◌, ◌^◌, IfOk, All};
ghost use Rattle.cmis_spec.specs.Documents.{with_member, with_policies, with_content};

use crate::change::applied_with;
use crate::draft::Draft;
use crate::made::{
    applied_of, contents_of, counted, given_up, objects_of, put_applied, put_contents,
};
use crate::told::with_objects;
use cm_base::content::Content;
use cm_base::number::Oid;
use cm_base::object::Object;
use std::alloc::{AllocError, Global};

impl Draft {
    /// A new object of a series, without an access list of its own. Its number is above those of all others.
    pub fn with_member(self, alloc: Global, object: Object) -> Result<Draft, AllocError>
        requires room { self.next + 1 < 2 ^ 64 }
        requires above { All (λ x. x.id.0 < object.id.0) self.objects }
        ensures { IfOk result (λ d. d ≡ with_member self object) }
    {
        let number = object.id;
        let objects = match objects_of(self.parts()).with_last(alloc, object) {
            Ok(objects) => objects,
            Err(short) => return Err(given_up(self, short)),
        };
        let placed = with_objects(alloc, self, objects, number)?;
        Ok(counted(placed))
    }

    /// Policies more on an object.
    pub fn with_policies(
        self,
        alloc: Global,
        object: Oid,
        policies: &[Oid],
    ) -> Result<Draft, AllocError>
        ensures { IfOk result (λ d. d ≡ with_policies self object policies.now) }
    {
        match applied_with(alloc, applied_of(self.parts()), policies, object) {
            Ok(applied) => Ok(put_applied(self, applied)),
            Err(short) => Err(given_up(self, short)),
        }
    }

    /// The content of a document, in place of the one that it has.
    pub fn with_content(self, alloc: Global, content: Content) -> Result<Draft, AllocError>
        ensures { IfOk result (λ d. d ≡ with_content self content) }
    {
        match contents_of(self.parts()).with(alloc, content) {
            Ok(contents) => Ok(put_contents(self, contents)),
            Err(short) => Err(given_up(self, short)),
        }
    }
}
