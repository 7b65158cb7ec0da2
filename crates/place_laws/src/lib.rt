//! Laws of entries by their places and of the indexes that tell of them, by definitions alone.
#![tactic(auto)]
