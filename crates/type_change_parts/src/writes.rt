//! The arguments of the writes on types, one record a call (CMIS 1.1, sections 2.2.2.6 to 2.2.2.8).
use cm_base::text::Text;
use cm_types::request::TypeRequest;

/// Makes a type below its parent (section 2.2.2.6).
#[derive(Drop)]
pub struct CreateType {
    /// What the definition of the type gives.
    pub definition: TypeRequest,
}

/// Changes a type: what the definition does not give stays (section 2.2.2.7).
#[derive(Drop)]
pub struct UpdateType {
    pub definition: TypeRequest,
}

/// Removes a type (section 2.2.2.8).
#[derive(Drop)]
pub struct DeleteType {
    pub type_id: Text,
}
