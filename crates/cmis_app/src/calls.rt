//! The repository with all its calls, as the program runs it.
ghost use Rattle.std.specs.Prelude.{◌≡◌};

use crate::alike::replies_of_seen;
use crate::folders::Folders;
use cm_repo::repository_machine::RepositoryMachine;
use cm_repo::server_machine::ServerMachine;
use cmis_program::Program;

/// The repository with all its calls.
pub struct Calls;

impl Program for Calls {
    type Face = ServerMachine;

    type Plain = RepositoryMachine;

    type Folders = Folders;

    fn replies_of_seen() {
        replies_of_seen();
    }
}
