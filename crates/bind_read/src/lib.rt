//! What a request asks: a write or a question with all its arguments, or the first cause why it asks nothing (CMIS 1.1, section 5.4).
#![tactic(auto)]

ghost use Rattle.std.specs.Prelude.{◌≡◌};

pub mod call;
