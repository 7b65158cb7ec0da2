//! What a line of a script asks for.
use cm_base::text::Text;

/// What a session does.
#[derive(Drop)]
pub enum Act {
    /// It begins.
    Open,
    /// It makes a folder of this name in the root.
    Write(Text),
    /// It looks at the whole history.
    Look,
    /// It asks for the children of the root.
    Ask,
}

/// A step of a session, by the session's number from 1 to 1000.
#[derive(Drop)]
pub struct Step {
    pub session: u32,
    pub act: Act,
}
