//! What the payloads of a journal tell.

use cm_base::number::Moment;
use desk_model::Entry;

/// What a journal begins with: the moment at which its root was made, and the people that hold from there on.
#[derive(Drop)]
pub struct Root<P> {
    pub moment: Moment,
    pub people: P,
}

/// What a payload behind the first tells.
#[derive(Drop)]
pub enum Record<C, P> {
    /// An accepted write.
    Written(Entry<C>),
    /// The people that hold from here on.
    Changed(P),
}
