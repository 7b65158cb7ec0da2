//! What a createDocument that is not refused finds, and what it makes.
ghost use Rattle.std.specs.Prelude.{◌≡◌};

use cm_base::content::Content;
use cm_base::number::Oid;
use cm_base::object::Object;
use cm_base::series::{Series, VersioningState};
use cm_base::value::Values;

/// The folder in which the document is to stand, if there is one, the state in which it is made, and its values.
#[derive(Drop)]
pub struct Allowed {
    pub folder: Option<Oid>,
    pub state: VersioningState,
    pub values: Values,
}

/// A new document with its series, its content and the folder in which it is filed.
#[derive(Drop)]
pub struct NewDocument {
    pub object: Object,
    pub series: Series,
    pub content: Option<Content>,
    pub folder: Option<Oid>,
}
