//! What goes with a deletion.
ghost use Rattle.std.specs.Prelude.{◌≡◌, IfOk};
ghost use Rattle.cmis_spec.specs.Changes.{without_object, without_list, without_content};
ghost use Rattle.cm_draft.specs.Without.{without_series, without_policy, without_policies, without_renditions};

use crate::draft::Draft;
use crate::made::{
    access_of, applied_of, contents_of, given_up, objects_of, put_access, put_applied,
    put_contents, put_renditions, renditions_of, series_of,
};
use crate::told::{with_all_series, with_objects};
use cm_base::number::Oid;
use std::alloc::{AllocError, Global};

impl Draft {
    /// The object of this number gone; its pairs, its access list and all else stay.
    pub fn without_object(self, alloc: Global, n: Oid) -> Result<Draft, AllocError>
        ensures { IfOk result (λ d. d ≡ without_object self n) }
    {
        match objects_of(self.parts()).without(alloc, n.0) {
            Ok(objects) => with_objects(alloc, self, objects, n),
            Err(short) => Err(given_up(self, short)),
        }
    }

    /// The series of this number gone; its versions and all else stay.
    pub fn without_series(self, alloc: Global, n: Oid) -> Result<Draft, AllocError>
        ensures { IfOk result (λ d. d ≡ without_series self n) }
    {
        match series_of(self.parts()).without(alloc, n.0) {
            Ok(series) => with_all_series(alloc, self, series, n),
            Err(short) => Err(given_up(self, short)),
        }
    }

    /// The access control list that is kept under the number gone.
    pub fn without_list(self, alloc: Global, n: Oid) -> Result<Draft, AllocError>
        ensures { IfOk result (λ d. d ≡ without_list self n) }
    {
        match access_of(self.parts()).without(alloc, n.0) {
            Ok(access) => Ok(put_access(self, access)),
            Err(short) => Err(given_up(self, short)),
        }
    }

    /// The content of the document gone.
    pub fn without_content(self, alloc: Global, n: Oid) -> Result<Draft, AllocError>
        ensures { IfOk result (λ d. d ≡ without_content self n) }
    {
        match contents_of(self.parts()).without(alloc, n.0) {
            Ok(contents) => Ok(put_contents(self, contents)),
            Err(short) => Err(given_up(self, short)),
        }
    }

    /// The policy no longer on the object.
    pub fn without_policy(
        self,
        alloc: Global,
        policy: Oid,
        object: Oid,
    ) -> Result<Draft, AllocError>
        ensures { IfOk result (λ d. d ≡ without_policy self policy object) }
    {
        match applied_of(self.parts()).remove(alloc, policy, object) {
            Ok(applied) => Ok(put_applied(self, applied)),
            Err(short) => Err(given_up(self, short)),
        }
    }

    /// No policy on the object any more.
    pub fn without_policies(self, alloc: Global, n: Oid) -> Result<Draft, AllocError>
        ensures { IfOk result (λ d. d ≡ without_policies self n) }
    {
        match applied_of(self.parts()).without_object(alloc, n) {
            Ok(applied) => Ok(put_applied(self, applied)),
            Err(short) => Err(given_up(self, short)),
        }
    }

    /// The renditions of the document gone.
    pub fn without_renditions(self, alloc: Global, n: Oid) -> Result<Draft, AllocError>
        ensures { IfOk result (λ d. d ≡ without_renditions self n) }
    {
        match renditions_of(self.parts()).without_document(alloc, n) {
            Ok(renditions) => Ok(put_renditions(self, renditions)),
            Err(short) => Err(given_up(self, short)),
        }
    }
}
