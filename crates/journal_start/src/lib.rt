//! The start of a run over a journal in a file: it is replayed, the people of the run are judged by those of the file, and what the run has to put
//! first is put: the root of a file that stands for nothing, or the record of other people.
#![tactic(auto)]

mod begin;
mod begin_stop;
mod meeting;
mod put;
mod writing;

pub use begin::{Started, begin_journal};
pub use begin_stop::BeginStop;
pub use meeting::{Meeting, PeopleRule};
pub use writing::JournalWriting;
