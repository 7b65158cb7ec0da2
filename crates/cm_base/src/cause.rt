//! Causes of refusals: each has an exception, a status and a message of its own.
ghost use Rattle.std.specs.Prelude.{◌≡◌, ◌∷◌, [], ◌++◌, codes, IfOk, string_bytes};
ghost use Rattle.std.specs.List.{flat_map};
ghost use Rattle.std.specs.Fmt.{signed_decimal};
ghost use Rattle.cm_base.specs.Causes.{exception_of, cause_status, fixed_text, message_of, fault_word, property_exception_of};

use crate::argument::Argument;
use crate::exception::Exception;
use crate::number::Moment;
use crate::text::Text;
use std::alloc::{AllocError, Global};

/// What is wrong with a property, in the order in which it is looked for.
#[derive(Clone, Copy, Debug, PartialEq, Eq)]
pub enum PropertyFault {
    /// The object's types have no such property.
    Unknown,
    /// The call may not give it.
    Readonly,
    /// Several values, be it one item, for a property of one.
    Cardinality,
    /// A text is not of the property's form.
    Form,
    /// A text has too many characters.
    Length,
    /// A number is out of its range.
    Range,
    /// A value is none of the choices.
    Choice,
    /// It is required and would be unset.
    Required,
}

impl PropertyFault {
    /// The word that a message has for it.
    pub fn word(self) -> &'static str
        ensures { result.now ≡ fault_word self }
    {
        match self {
            PropertyFault::Unknown => "unknown",
            PropertyFault::Readonly => "readonly",
            PropertyFault::Cardinality => "cardinality",
            PropertyFault::Form => "form",
            PropertyFault::Length => "length",
            PropertyFault::Range => "range",
            PropertyFault::Choice => "choice",
            PropertyFault::Required => "required",
        }
    }
}

/// Why a request is refused.
#[derive(Drop)]
pub enum Cause {
    /// The target is none of the addresses.
    NoUrl,
    /// The method is neither GET nor POST.
    BadMethod,
    /// The selector or action, named here, is not served at the address.
    NotServed(Text),
    /// The argument named has no value of its form.
    BadArgument(Argument),
    /// The argument named is needed and not given.
    MissingArgument(Argument),
    /// The property filter is not of its form.
    BadFilter,
    /// The body is no form.
    BadBody,
    /// The text is no type definition.
    BadTypeText,
    /// The request names a later step than the one reached.
    StepAhead(u64, u64),
    /// The credentials are not those of a user.
    WrongSecret,
    /// A limit would be passed: what is used, what is asked, the limit.
    Storage(u64, u64, u64),
    /// An object is not there, or is not read by the caller.
    NotFound,
    /// A type is not there.
    TypeNotFound,
    /// The caller lacks the permission.
    Denied,
    /// The change token given differs from the one kept.
    Token(Text, u64),
    /// An object is not of the kind that the call needs.
    WrongKind,
    /// The root folder has no parent.
    RootParent,
    /// The type is of another base type than the call makes.
    TypeKind,
    /// The type is not creatable.
    NotCreatable,
    /// The versioning state does not fit the type.
    VersionState,
    /// The type is not versionable.
    NotVersionable,
    /// The version series is checked out.
    CheckedOut,
    /// The version is not the latest of its series.
    NotLatest,
    /// The object is not a private working copy.
    NotWorking,
    /// The root folder is not renamed, moved or deleted.
    RootFixed,
    /// The folder has children.
    NotEmpty,
    /// The folder would become a descendant of itself.
    Below,
    /// The folder would stand more than 48 levels below the root.
    Deep,
    /// The object can not be filed.
    NotFileable,
    /// A folder has exactly one parent.
    OneParent,
    /// The object is not filed in the folder.
    NotFiled,
    /// The object is filed in the folder.
    AlreadyFiled,
    /// The folder does not allow children of the type.
    ChildType,
    /// An end of a relationship is a relationship.
    EndKind,
    /// The relationship type does not allow an end of the type.
    EndType,
    /// The policy is applied to an object.
    PolicyInUse,
    /// The type does not allow policies, or access control lists.
    NotControllable,
    /// The permission is none of the three.
    Permission,
    /// Propagation is not offered.
    Propagation,
    /// Another type has the id or the query name.
    TypeTaken,
    /// The type can not be changed so.
    TypeFixed,
    /// The type has a subtype or an object.
    TypeInUse,
    /// The type definition breaks a rule.
    TypeRule,
    /// The property named has the fault named.
    Property(Text, PropertyFault),
    /// The name has not its form.
    BadName,
    /// A child of the folder has the name.
    NameTaken,
    /// The type does not allow content.
    StreamNot,
    /// There is content, which is not to be replaced.
    ContentExists,
    /// The type requires content.
    ContentRequired,
    /// The content would have more than 33554432 bytes.
    StreamLong,
    /// There is no content.
    NoContent,
    /// The document is under hold.
    Held,
    /// The document is under retention: the moment of the write, and the expiration.
    Retained(Moment, Moment),
    /// The retention would end earlier: the moment of the write, and the expiration as it is.
    Shortened(Moment, Moment),
    /// The answer would list so many objects, more than 5000.
    TooMany(u64),
    /// The query text has a fault at this byte.
    QueryText(u64),
    /// The query names a type or column that is not there.
    QueryName(Text),
    /// The query uses the column in a way that its definition does not allow.
    QueryUse(Text),
    /// The query uses a part of the language that is left out.
    QueryLeft(Text),
    /// The head of the request is not valid.
    BadHead,
    /// The head of the request is too long.
    LongHead,
    /// The body of the request is too long.
    LongBody,
    /// The framing of the body is not valid.
    BadLength,
    /// The transfer coding is not known.
    Coding,
}

impl Cause {
    /// Its exception.
    pub fn exception(&self) -> Exception
        ensures { result ≡ exception_of self.now }
    {
        match self {
            Cause::NoUrl => Exception::ObjectNotFound,
            Cause::BadMethod => Exception::NotSupported,
            Cause::NotServed(_) => Exception::NotSupported,
            Cause::BadArgument(_) => Exception::InvalidArgument,
            Cause::MissingArgument(_) => Exception::InvalidArgument,
            Cause::BadFilter => Exception::FilterNotValid,
            Cause::BadBody => Exception::InvalidArgument,
            Cause::BadTypeText => Exception::InvalidArgument,
            Cause::StepAhead(_, _) => Exception::InvalidArgument,
            Cause::WrongSecret => Exception::PermissionDenied,
            Cause::Storage(_, _, _) => Exception::Storage,
            Cause::NotFound => Exception::ObjectNotFound,
            Cause::TypeNotFound => Exception::ObjectNotFound,
            Cause::Denied => Exception::PermissionDenied,
            Cause::Token(_, _) => Exception::UpdateConflict,
            Cause::WrongKind => Exception::InvalidArgument,
            Cause::RootParent => Exception::InvalidArgument,
            Cause::TypeKind => Exception::Constraint,
            Cause::NotCreatable => Exception::Constraint,
            Cause::VersionState => Exception::Constraint,
            Cause::NotVersionable => Exception::Constraint,
            Cause::CheckedOut => Exception::Versioning,
            Cause::NotLatest => Exception::Versioning,
            Cause::NotWorking => Exception::Versioning,
            Cause::RootFixed => Exception::Constraint,
            Cause::NotEmpty => Exception::Constraint,
            Cause::Below => Exception::Constraint,
            Cause::Deep => Exception::Constraint,
            Cause::NotFileable => Exception::Constraint,
            Cause::OneParent => Exception::Constraint,
            Cause::NotFiled => Exception::InvalidArgument,
            Cause::AlreadyFiled => Exception::Constraint,
            Cause::ChildType => Exception::Constraint,
            Cause::EndKind => Exception::Constraint,
            Cause::EndType => Exception::Constraint,
            Cause::PolicyInUse => Exception::Constraint,
            Cause::NotControllable => Exception::Constraint,
            Cause::Permission => Exception::Constraint,
            Cause::Propagation => Exception::Constraint,
            Cause::TypeTaken => Exception::Constraint,
            Cause::TypeFixed => Exception::Constraint,
            Cause::TypeInUse => Exception::Constraint,
            Cause::TypeRule => Exception::Constraint,
            Cause::Property(_, fault) => property_exception(*fault),
            Cause::BadName => Exception::NameConstraintViolation,
            Cause::NameTaken => Exception::NameConstraintViolation,
            Cause::StreamNot => Exception::StreamNotSupported,
            Cause::ContentExists => Exception::ContentAlreadyExists,
            Cause::ContentRequired => Exception::Constraint,
            Cause::StreamLong => Exception::Constraint,
            Cause::NoContent => Exception::Constraint,
            Cause::Held => Exception::Constraint,
            Cause::Retained(_, _) => Exception::Constraint,
            Cause::Shortened(_, _) => Exception::Constraint,
            Cause::TooMany(_) => Exception::Constraint,
            Cause::QueryText(_) => Exception::InvalidArgument,
            Cause::QueryName(_) => Exception::InvalidArgument,
            Cause::QueryUse(_) => Exception::InvalidArgument,
            Cause::QueryLeft(_) => Exception::NotSupported,
            Cause::BadHead => Exception::InvalidArgument,
            Cause::LongHead => Exception::InvalidArgument,
            Cause::LongBody => Exception::InvalidArgument,
            Cause::BadLength => Exception::InvalidArgument,
            Cause::Coding => Exception::InvalidArgument,
        }
    }

    /// The HTTP status of its reply.
    pub fn status(&self) -> u16
        ensures { result ≡ cause_status self.now }
    {
        match self {
            Cause::WrongSecret => 401,
            Cause::BadHead => 400,
            Cause::LongHead => 431,
            Cause::LongBody => 413,
            Cause::BadLength => 400,
            Cause::Coding => 501,
            _ => self.exception().status(),
        }
    }

    /// The fixed text with which its message begins.
    pub fn text(&self) -> &'static str
        ensures { result.now ≡ fixed_text self.now }
    {
        match self {
            Cause::NoUrl => "address is not found",
            Cause::BadMethod => "method is not supported",
            Cause::NotServed(_) => "call is not supported",
            Cause::BadArgument(_) => "argument is not valid",
            Cause::MissingArgument(_) => "argument is missing",
            Cause::BadFilter => "filter is not valid",
            Cause::BadBody => "form is not valid",
            Cause::BadTypeText => "type is not valid",
            Cause::StepAhead(_, _) => "step is ahead",
            Cause::WrongSecret => "credentials are not valid",
            Cause::Storage(_, _, _) => "limit is reached",
            Cause::NotFound => "object is not found",
            Cause::TypeNotFound => "type is not found",
            Cause::Denied => "permission is missing",
            Cause::Token(_, _) => "change token differs",
            Cause::WrongKind => "object has another kind",
            Cause::RootParent => "root has no parent",
            Cause::TypeKind => "type does not fit the call",
            Cause::NotCreatable => "type is not creatable",
            Cause::VersionState => "versioning state does not fit",
            Cause::NotVersionable => "type is not versionable",
            Cause::CheckedOut => "series is checked out",
            Cause::NotLatest => "version is not the latest",
            Cause::NotWorking => "object is not a working copy",
            Cause::RootFixed => "root folder stays",
            Cause::NotEmpty => "folder is not empty",
            Cause::Below => "folder would stand below itself",
            Cause::Deep => "folder would stand too deep",
            Cause::NotFileable => "object is not fileable",
            Cause::OneParent => "folder has one parent",
            Cause::NotFiled => "object is not in the folder",
            Cause::AlreadyFiled => "object is in the folder",
            Cause::ChildType => "type is not allowed in the folder",
            Cause::EndKind => "relationship end has another kind",
            Cause::EndType => "relationship end has another type",
            Cause::PolicyInUse => "policy is applied",
            Cause::NotControllable => "type is not controllable",
            Cause::Permission => "permission is not known",
            Cause::Propagation => "propagation is not offered",
            Cause::TypeTaken => "type id or query name is taken",
            Cause::TypeFixed => "type can not be changed",
            Cause::TypeInUse => "type is in use",
            Cause::TypeRule => "type breaks a rule",
            Cause::Property(_, _) => "property is not valid",
            Cause::BadName => "name is not valid",
            Cause::NameTaken => "name is taken",
            Cause::StreamNot => "content is not allowed",
            Cause::ContentExists => "content is there",
            Cause::ContentRequired => "content is required",
            Cause::StreamLong => "content is too long",
            Cause::NoContent => "content is not there",
            Cause::Held => "object is under hold",
            Cause::Retained(_, _) => "object is under retention",
            Cause::Shortened(_, _) => "retention is shortened",
            Cause::TooMany(_) => "answer is too long",
            Cause::QueryText(_) => "query is not valid",
            Cause::QueryName(_) => "query name is not known",
            Cause::QueryUse(_) => "column is not used rightly",
            Cause::QueryLeft(_) => "query part is not supported",
            Cause::BadHead => "head is not valid",
            Cause::LongHead => "head is too long",
            Cause::LongBody => "body is too long",
            Cause::BadLength => "length is not valid",
            Cause::Coding => "coding is not known",
        }
    }

    /// The fixed text, then for each kept value a space and the value.
    pub fn message(&self, alloc: Global) -> Result<Text, AllocError>
        ensures { IfOk result (λ t. t ≡ message_of self.now) }
    {
        let text = self.text();
        let message = match self {
            Cause::NotServed(word) => {
                let word = word.as_str();
                format!(in alloc; "{text} {word}")
            }
            Cause::BadArgument(name) => {
                let name = name.word();
                format!(in alloc; "{text} {name}")
            }
            Cause::MissingArgument(name) => {
                let name = name.word();
                format!(in alloc; "{text} {name}")
            }
            Cause::StepAhead(asked, number) => { format!(in alloc; "{text} {asked} {number}") }
            Cause::Storage(used, asked, limit) => {
                format!(in alloc; "{text} {used} {asked} {limit}")
            }
            Cause::Token(given, kept) => {
                let given = given.as_str();
                format!(in alloc; "{text} {given} {kept}")
            }
            Cause::Property(id, fault) => {
                let id = id.as_str();
                let fault = fault.word();
                format!(in alloc; "{text} {id} {fault}")
            }
            Cause::Retained(moment, expiration) => with_moments(
                alloc,
                text,
                moment.0,
                expiration.0,
            ),
            Cause::Shortened(moment, expiration) => with_moments(
                alloc,
                text,
                moment.0,
                expiration.0,
            ),
            Cause::TooMany(count) => { format!(in alloc; "{text} {count}") }
            Cause::QueryText(place) => { format!(in alloc; "{text} {place}") }
            Cause::QueryName(name) => {
                let name = name.as_str();
                format!(in alloc; "{text} {name}")
            }
            Cause::QueryUse(name) => {
                let name = name.as_str();
                format!(in alloc; "{text} {name}")
            }
            Cause::QueryLeft(word) => {
                let word = word.as_str();
                format!(in alloc; "{text} {word}")
            }
            _ => format!(in alloc; "{text}"),
        };
        Ok(Text::from_string(message?))
    }
}

// A blank and a moment, in milliseconds since 1970.
fn behind_blank(alloc: Global, moment: i64) -> Result<String, AllocError>
    ensures { IfOk result (λ s. string_bytes s ≡ codes " " ++ signed_decimal moment) }
{
    format!(in alloc; " {moment}")
}

// A text and two moments behind it.
fn with_moments(alloc: Global, text: &str, first: i64, second: i64) -> Result<String, AllocError>
    ensures { IfOk result (λ s. string_bytes s ≡ text.now ++ flat_map (λ v. codes " " ++ v) (signed_decimal first ∷ signed_decimal second ∷ [])) }
{
    let first = behind_blank(alloc, first)?;
    let second = behind_blank(alloc, second)?;
    let mut all = String::new(alloc);
    all.push_str(text)?;
    all.push_str(first.as_str())?;
    all.push_str(second.as_str())?;
    Ok(all)
}

// A value of another form is an argument that is not valid; every other fault breaks a constraint.
fn property_exception(fault: PropertyFault) -> Exception
    ensures { result ≡ property_exception_of fault }
{
    match fault {
        PropertyFault::Form => Exception::InvalidArgument,
        _ => Exception::Constraint,
    }
}
