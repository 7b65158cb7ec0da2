//! The form of a journal's payloads.

/// The form of a journal's payloads.
pub struct JournalForm;
