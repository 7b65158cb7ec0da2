//! Encodings of values as bytes, made of a few parts. A number has eight bytes, the most significant first; bytes and texts stand behind
//! their length, the items of a list behind their number; a flag is one byte, 0 or 1; what may be absent stands behind a flag.
#![tactic(auto)]

pub mod coded;
pub mod lists;
pub mod numbers;
pub mod options;
pub mod pairs;
pub mod payload;
pub mod reader;
pub mod stop;
pub mod streams;
pub mod texts;
