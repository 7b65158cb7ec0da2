//! Callers who ask for a page of children.
ghost use Rattle.std.specs.Prelude.{◌≡◌};
ghost use Rattle.cm_types.specs.Types.{base_of};
ghost use Rattle.show_json.specs.Columns.{listing, sight};

use crate::sight::Sight;
use call_parts::readings::ReadChildren;
use cm_base::object::Object;
use cm_base::text::Text;
use cm_state::state::State;
use cm_types::definition::BaseType;
use std::alloc::Global;
use std::marker::Model;

/// A user who asks for a page of children, in a state.
#[derive(Drop)]
pub struct Listing<'a> {
    alloc: Global,
    state: &'a State,
    user: &'a Text,
    question: &'a ReadChildren,
}

impl<'a> Model for Listing<'a> {
    ghost use Rattle.show_json.specs.Columns.{Listing as Asked, listing};

    ghost Value = { Asked };

    ghost view = { λ l. listing l.state.now l.user.now l.question.now };
}

impl<'a> Listing<'a> {
    /// The question of a user, in a state.
    pub fn new(
        alloc: Global,
        state: &'a State,
        user: &'a Text,
        question: &'a ReadChildren,
    ) -> Listing<'a>
        ensures { result ≡ listing state.now user.now question.now }
    {
        Listing {
            alloc,
            state,
            user,
            question,
        }
    }

    /// Where memory is taken from.
    pub fn alloc(&self) -> Global {
        self.alloc
    }

    /// The state.
    pub fn state(&self) -> &'a State
        ensures { result.now ≡ self.now.repository }
    {
        self.state
    }

    /// The question.
    pub fn question(&self) -> &'a ReadChildren
        ensures { result.now ≡ self.now.question }
    {
        self.question
    }

    /// A child as the user looks at it.
    pub fn sight(&self, x: &'a Object, base: Option<BaseType>) -> Sight<'a>
        requires { base ≡ base_of self.now.repository.types x.now.kind }
        ensures { result ≡ sight self.now.repository self.now.user x.now }
    {
        Sight::new(self.alloc, self.state, self.user, x, base)
    }
}
