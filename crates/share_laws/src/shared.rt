//! What threads may share.
use cm_state::state::State;

// Asks that threads may share a type.
fn is_shared<T: Send + Sync>() {}

/// Threads may share states, whatever their contents and wherever these stand.
pub fn states_are_shared() {
    is_shared::<State>();
}
