//! The exceptions of the standard (CMIS 1.1, section 2.2.1.4).
ghost use Rattle.std.specs.Prelude.{◌≡◌};
ghost use Rattle.cm_base.specs.Exceptions.{number_of, name_of, status_of};

/// An exception, in the order of this project's numbers.
#[derive(Clone, Copy, Debug, PartialEq, Eq)]
pub enum Exception {
    InvalidArgument,
    NotSupported,
    ObjectNotFound,
    PermissionDenied,
    Runtime,
    Constraint,
    ContentAlreadyExists,
    FilterNotValid,
    NameConstraintViolation,
    Storage,
    StreamNotSupported,
    UpdateConflict,
    Versioning,
}

impl Exception {
    /// Its number in this project's table, from 1.
    pub fn number(self) -> u8
        ensures { result ≡ number_of self }
    {
        match self {
            Exception::InvalidArgument => 1,
            Exception::NotSupported => 2,
            Exception::ObjectNotFound => 3,
            Exception::PermissionDenied => 4,
            Exception::Runtime => 5,
            Exception::Constraint => 6,
            Exception::ContentAlreadyExists => 7,
            Exception::FilterNotValid => 8,
            Exception::NameConstraintViolation => 9,
            Exception::Storage => 10,
            Exception::StreamNotSupported => 11,
            Exception::UpdateConflict => 12,
            Exception::Versioning => 13,
        }
    }

    /// The name that a reply's body has.
    pub fn name(self) -> &'static str
        ensures { result.now ≡ name_of self }
    {
        match self {
            Exception::InvalidArgument => "invalidArgument",
            Exception::NotSupported => "notSupported",
            Exception::ObjectNotFound => "objectNotFound",
            Exception::PermissionDenied => "permissionDenied",
            Exception::Runtime => "runtime",
            Exception::Constraint => "constraint",
            Exception::ContentAlreadyExists => "contentAlreadyExists",
            Exception::FilterNotValid => "filterNotValid",
            Exception::NameConstraintViolation => "nameConstraintViolation",
            Exception::Storage => "storage",
            Exception::StreamNotSupported => "streamNotSupported",
            Exception::UpdateConflict => "updateConflict",
            Exception::Versioning => "versioning",
        }
    }

    /// The HTTP status that a reply has where its cause has none of its own (CMIS 1.1, section 5.2.10).
    pub fn status(self) -> u16
        ensures { result ≡ status_of self }
    {
        match self {
            Exception::InvalidArgument => 400,
            Exception::NotSupported => 405,
            Exception::ObjectNotFound => 404,
            Exception::PermissionDenied => 403,
            Exception::Runtime => 500,
            Exception::Constraint => 409,
            Exception::ContentAlreadyExists => 409,
            Exception::FilterNotValid => 400,
            Exception::NameConstraintViolation => 409,
            Exception::Storage => 500,
            Exception::StreamNotSupported => 403,
            Exception::UpdateConflict => 409,
            Exception::Versioning => 409,
        }
    }
}
