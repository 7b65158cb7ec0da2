//! Parts of trees, as they are read before the whole is known.
ghost use Rattle.std.specs.Prelude.{◌≡◌, [], ◌∷◌, IfOk};

use cm_base::items::Items;
use cm_base::text::Text;
use ql_tree::tree::{Comparison, Literal};
use std::alloc::{AllocError, Global};

/// What may stand behind the first name of an item.
#[derive(Drop)]
pub enum ItemRest {
    /// `.*`
    Star,
    /// `. name [[AS] name]`
    Dotted(Text, Option<Text>),
    /// `[AS] name`
    Alias(Text),
}

/// What may stand behind a column in a test.
#[derive(Drop)]
pub enum TestRest {
    Compare(Comparison, Literal),
    In(bool, Items<Literal>),
    Like(bool, Text),
    Null(bool),
}

/// A list of literals, and whether NOT stands before IN.
#[derive(Drop)]
pub struct Among {
    pub negated: bool,
    pub literals: Items<Literal>,
}

/// The arguments of IN_FOLDER and IN_TREE.
#[derive(Drop)]
pub struct Placed {
    pub table: Option<Text>,
    pub text: Text,
}

/// The list of one item, to which more are added as they are read.
pub fn alone<T: Drop>(alloc: Global, item: T) -> Result<Items<T>, AllocError>
    ensures { IfOk result (λ xs. xs ≡ item ∷ []) }
{
    let mut found = Items::new(alloc);
    found.push(item)?;
    Ok(found)
}
