//! Rules of grammars over tokens of any type, and their laws: definitions and proofs alone, no code.
//!
//! `specs/Rules.antt` has the words of EBNF as relations between lists of tokens and trees: `one` token, `both` (a b), `chain` (a {b}),
//! `perhaps` (a [b]), `either` (a | b), `mapped` (another tree) and `stands` (a token that a larger language has in a's place), and the contract of a reader
//! of tokens: `Took` (what was read) and `Stuck` (where reading can't go on). `proofs/` has a law for each word and each way to leave its reader.
#![tactic(auto)]
