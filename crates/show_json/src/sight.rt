//! Objects that a caller looks at.
ghost use Rattle.std.specs.Prelude.{◌≡◌, option_map, unwrap_or, false};
ghost use Rattle.cm_types.specs.declared.definition.BaseType.TheVariants as bases;
ghost use Rattle.cm_types.specs.Types.{base_of, same_base};
ghost use Rattle.cmis_spec.specs.Repository.{is_a};
ghost use Rattle.show_json.specs.Columns.{sight};

use cm_base::object::Object;
use cm_base::text::Text;
use cm_state::state::State;
use cm_types::definition::BaseType;
use std::alloc::Global;
use std::marker::Model;

/// An object that a caller looks at, and the base type of its type, which was looked up once for all objects of the type.
#[derive(Drop)]
pub struct Sight<'a> {
    alloc: Global,
    state: &'a State,
    user: &'a Text,
    object: &'a Object,
    base: Option<BaseType>,
}

impl<'a> Model for Sight<'a> {
    ghost use Rattle.std.specs.Prelude.{◌≡◌};
    ghost use Rattle.cm_types.specs.Types.{base_of};
    ghost use Rattle.show_json.specs.Columns.{Sight as Seen, sight};

    ghost Value = { Seen };

    ghost view = { λ s. sight s.state.now s.user.now s.object.now };

    ghost invariant = { λ s. s.base ≡ base_of s.state.now.types s.object.now.kind };
}

/// The base type of an object's type.
pub fn base_of(state: &State, x: &Object) -> Option<BaseType>
    ensures { result ≡ base_of state.now.types x.now.kind }
{
    match state.type_named(&x.kind) {
        Some(def) => Some(def.base),
        None => None,
    }
}

fn is_folder(base: BaseType) -> bool
    ensures { result ≡ same_base bases.Folder base }
{
    match base {
        BaseType::Folder => true,
        BaseType::Document => false,
        BaseType::Relationship => false,
        BaseType::Policy => false,
        BaseType::Item => false,
        BaseType::Secondary => false,
    }
}

fn may_be_folder(base: Option<BaseType>) -> bool
    ensures { result ≡ unwrap_or (option_map (same_base bases.Folder) base) false }
{
    match base {
        Some(base) => is_folder(base),
        None => false,
    }
}

impl<'a> Sight<'a> {
    /// The object as the user looks at it; its base type is known.
    pub fn new(
        alloc: Global,
        state: &'a State,
        user: &'a Text,
        object: &'a Object,
        base: Option<BaseType>,
    ) -> Sight<'a>
        requires { base ≡ base_of state.now.types object.now.kind }
        ensures { result ≡ sight state.now user.now object.now }
    {
        Sight {
            alloc,
            state,
            user,
            object,
            base,
        }
    }

    /// Where memory is taken from.
    pub fn alloc(&self) -> Global {
        self.alloc
    }

    /// The state.
    pub fn state(&self) -> &'a State
        ensures { result.now ≡ self.now.repository }
    {
        self.state
    }

    /// The user who looks.
    pub fn user(&self) -> &'a Text
        ensures { result.now ≡ self.now.user }
    {
        self.user
    }

    /// The object.
    pub fn object(&self) -> &'a Object
        ensures { result.now ≡ self.now.object }
    {
        self.object
    }

    /// The base type of the object's type.
    pub fn base(&self) -> Option<BaseType>
        ensures { result ≡ base_of self.now.repository.types self.now.object.kind }
    {
        self.base
    }

    /// Whether the object is a folder.
    pub fn is_folder(&self) -> bool
        ensures { result ≡ is_a self.now.repository bases.Folder self.now.object }
    {
        may_be_folder(self.base)
    }
}
