//! The properties whose values follow from the repository and are not kept with the object's other values.
ghost use Rattle.std.specs.Prelude.{◌≡◌, bytes_eq, find, option_copied};
ghost use Rattle.cm_see.specs.System.{system_word, system_named};

/// A property that the repository sets (CMIS 1.1, sections 2.1.4.3 to 2.1.8.2), or that is kept beside the other values.
#[derive(Clone, Copy, Debug, PartialEq, Eq)]
pub enum SystemProperty {
    Name,
    ObjectId,
    BaseTypeId,
    ObjectTypeId,
    SecondaryObjectTypeIds,
    CreatedBy,
    CreationDate,
    LastModifiedBy,
    LastModificationDate,
    ChangeToken,
    ParentId,
    Path,
    IsImmutable,
    IsLatestVersion,
    IsMajorVersion,
    IsLatestMajorVersion,
    IsPrivateWorkingCopy,
    VersionLabel,
    VersionSeriesId,
    IsVersionSeriesCheckedOut,
    VersionSeriesCheckedOutBy,
    VersionSeriesCheckedOutId,
    ContentStreamLength,
    ContentStreamMimeType,
    ContentStreamFileName,
    ContentStreamId,
}

impl SystemProperty {
    /// Its id.
    pub fn word(self) -> &'static str
        ensures { result.now ≡ system_word self }
    {
        match self {
            SystemProperty::Name => "cmis:name",
            SystemProperty::ObjectId => "cmis:objectId",
            SystemProperty::BaseTypeId => "cmis:baseTypeId",
            SystemProperty::ObjectTypeId => "cmis:objectTypeId",
            SystemProperty::SecondaryObjectTypeIds => "cmis:secondaryObjectTypeIds",
            SystemProperty::CreatedBy => "cmis:createdBy",
            SystemProperty::CreationDate => "cmis:creationDate",
            SystemProperty::LastModifiedBy => "cmis:lastModifiedBy",
            SystemProperty::LastModificationDate => "cmis:lastModificationDate",
            SystemProperty::ChangeToken => "cmis:changeToken",
            SystemProperty::ParentId => "cmis:parentId",
            SystemProperty::Path => "cmis:path",
            SystemProperty::IsImmutable => "cmis:isImmutable",
            SystemProperty::IsLatestVersion => "cmis:isLatestVersion",
            SystemProperty::IsMajorVersion => "cmis:isMajorVersion",
            SystemProperty::IsLatestMajorVersion => "cmis:isLatestMajorVersion",
            SystemProperty::IsPrivateWorkingCopy => "cmis:isPrivateWorkingCopy",
            SystemProperty::VersionLabel => "cmis:versionLabel",
            SystemProperty::VersionSeriesId => "cmis:versionSeriesId",
            SystemProperty::IsVersionSeriesCheckedOut => "cmis:isVersionSeriesCheckedOut",
            SystemProperty::VersionSeriesCheckedOutBy => "cmis:versionSeriesCheckedOutBy",
            SystemProperty::VersionSeriesCheckedOutId => "cmis:versionSeriesCheckedOutId",
            SystemProperty::ContentStreamLength => "cmis:contentStreamLength",
            SystemProperty::ContentStreamMimeType => "cmis:contentStreamMimeType",
            SystemProperty::ContentStreamFileName => "cmis:contentStreamFileName",
            SystemProperty::ContentStreamId => "cmis:contentStreamId",
        }
    }
}

fn is_word(property: &SystemProperty, id: &str) -> bool
    ensures { result ≡ bytes_eq (system_word property.now) id.now }
{
    property.word() == id
}

fn find_among<'a>(all: &'a [SystemProperty], id: &str) -> Option<&'a SystemProperty>
    ensures { option_copied result ≡ find (λ p. bytes_eq (system_word p) id.now) all.now }
{
    all.iter().find(|p| is_word(p, id))
}

fn first_among(all: &[SystemProperty], id: &str) -> Option<SystemProperty>
    ensures { result ≡ find (λ p. bytes_eq (system_word p) id.now) all.now }
{
    match find_among(all, id) {
        Some(property) => Some(*property),
        None => None,
    }
}

/// The one with this id, if there is one. Takes no memory.
pub fn find_system(id: &str) -> Option<SystemProperty>
    ensures { result ≡ system_named id.now }
{
    first_among(
        &[
            SystemProperty::Name,
            SystemProperty::ObjectId,
            SystemProperty::BaseTypeId,
            SystemProperty::ObjectTypeId,
            SystemProperty::SecondaryObjectTypeIds,
            SystemProperty::CreatedBy,
            SystemProperty::CreationDate,
            SystemProperty::LastModifiedBy,
            SystemProperty::LastModificationDate,
            SystemProperty::ChangeToken,
            SystemProperty::ParentId,
            SystemProperty::Path,
            SystemProperty::IsImmutable,
            SystemProperty::IsLatestVersion,
            SystemProperty::IsMajorVersion,
            SystemProperty::IsLatestMajorVersion,
            SystemProperty::IsPrivateWorkingCopy,
            SystemProperty::VersionLabel,
            SystemProperty::VersionSeriesId,
            SystemProperty::IsVersionSeriesCheckedOut,
            SystemProperty::VersionSeriesCheckedOutBy,
            SystemProperty::VersionSeriesCheckedOutId,
            SystemProperty::ContentStreamLength,
            SystemProperty::ContentStreamMimeType,
            SystemProperty::ContentStreamFileName,
            SystemProperty::ContentStreamId,
        ],
        id,
    )
}
