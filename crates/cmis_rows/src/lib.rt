//! Worked rows of the definitions: a small repository, and what its callers read, find and see in it. Each row is computed.
#![tactic(auto)]
