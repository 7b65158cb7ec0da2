//! The repository, as scripts run over it.
ghost use Rattle.std.specs.Prelude.{◌≡◌};
ghost use Rattle.cmis_app.specs.Scripting.{script_calls};

use cm_base::cause::Cause;
use cm_base::exception::Exception;
use cm_base::text::{Text, Texts};
use cm_call::question::Question;
use cm_call::reply::Reply;
use cm_call::write::Write;
use cm_repo::repository_machine::RepositoryMachine;
use cmis_runs::scripting::{child_names, folder_in_root, folder_properties, root_children};
use schedule_run::Scripted;
use std::alloc::{AllocError, Global};

/// The repository, as scripts run over it.
pub struct Folders;

impl Scripted for Folders {
    type Kind = RepositoryMachine;

    ghost asks = { script_calls };

    fn folder(alloc: Global, name: Text) -> Result<Write, AllocError> {
        let properties = folder_properties(alloc, name)?;
        Ok(Write::CreateFolder(folder_in_root(alloc, properties)))
    }

    fn children(alloc: Global) -> Question {
        Question::Children(root_children(alloc))
    }

    fn names(alloc: Global, shown: &Reply) -> Result<Texts, AllocError> {
        match shown {
            Reply::Children(reply) => child_names(alloc, reply.children.as_slice()),
            _ => Ok(Texts::new(alloc)),
        }
    }

    fn exception(cause: &Cause) -> Exception {
        cause.exception()
    }
}
