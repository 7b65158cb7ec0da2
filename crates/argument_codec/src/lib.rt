//! What calls hold, as bytes: addressed objects, properties, entries of access lists, streams, words, and what is asked of types.
#![tactic(auto)]

pub mod form;
pub mod places;
pub mod type_requests;
pub mod values;
