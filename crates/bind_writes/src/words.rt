//! The words of arguments that several calls have (CMIS 1.1, section 5.4).

pub(crate) const ADD_ACE_PERMISSION: &str = "addACEPermission";

pub(crate) const ADD_ACE_PRINCIPAL: &str = "addACEPrincipal";

pub(crate) const ADD_SECONDARY_TYPE_ID: &str = "addSecondaryTypeId";

pub(crate) const ALL_VERSIONS: &str = "allVersions";

pub(crate) const CHANGE_TOKEN: &str = "changeToken";

pub(crate) const CONTENT: &str = "content";

pub(crate) const CONTINUE_ON_FAILURE: &str = "continueOnFailure";

pub(crate) const POLICY: &str = "policy";

pub(crate) const REMOVE_ACE_PERMISSION: &str = "removeACEPermission";

pub(crate) const REMOVE_ACE_PRINCIPAL: &str = "removeACEPrincipal";

pub(crate) const REMOVE_SECONDARY_TYPE_ID: &str = "removeSecondaryTypeId";

pub(crate) const UNFILE_OBJECTS: &str = "unfileObjects";

pub(crate) const VERSIONING_STATE: &str = "versioningState";
