//! Where an action is shown as not allowed on an object, the call that it names is refused, and where it is shown as allowed, that call is
//! refused by none of the causes that stand for the action (CMIS 1.1, section 2.2.4.7): laws alone, each as a clause of a function
//! that does nothing. Five of the thirty actions are always allowed and need no law: GetAcl, GetAppliedPolicies,
//! GetObjectRelationships, GetProperties and GetRenditions.
#![tactic(auto)]

ghost use Rattle.std.specs.Prelude.{◌≡◌};

pub mod access;
pub mod contents;
pub mod creations;
pub mod filing;
pub mod lists;
pub mod policies;
pub mod properties;
pub mod removals;
pub mod streams;
pub mod trees;
pub mod versioning;
