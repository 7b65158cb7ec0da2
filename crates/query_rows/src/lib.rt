//! Worked rows of queries: a small repository, and what is found in it. Each row is computed.
#![tactic(auto)]
