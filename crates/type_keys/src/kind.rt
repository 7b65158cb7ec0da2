//! The kinds of values that stand at the keys of a type definition.
ghost use Rattle.std.specs.Prelude.{◌≡◌};

/// A kind of JSON value, or a word of a list.
#[derive(Clone, Copy, Debug, PartialEq, Eq)]
pub enum KeyKind {
    /// A string.
    Text,
    /// A boolean.
    Flag,
    /// An integer of 64 bits.
    Whole,
    /// An array of strings.
    Texts,
    /// An array of booleans, integers and strings.
    Scalars,
    /// An array of objects with a display name and a value.
    Choices,
    /// An object of the booleans create, update and delete.
    Mutability,
    /// An object of objects.
    Objects,
    /// Whether content is allowed.
    ContentWord,
    /// The type of a property.
    KindWord,
    /// The cardinality of a property.
    CardinalityWord,
    /// The updatability of a property.
    UpdatabilityWord,
    /// The resolution of a datetime property.
    TimeWord,
}
