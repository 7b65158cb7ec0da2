//! The entries of a journal.
use cm_base::number::Moment;
use cm_base::text::Text;

/// An accepted write: who made it, which of his writes it is, for which user, when, and what it asked.
#[derive(Drop)]
pub struct Entry<C> {
    /// The number of the session that made it.
    pub session: u32,
    /// How many entries this session had made before.
    pub serial: u64,
    pub user: Text,
    pub moment: Moment,
    pub call: C,
}
