//! What has to be given for a script to run: a machine, what the steps of a script ask of it, and what is printed of its answers.
ghost use Rattle.std.specs.Prelude.{◌≡◌, IfOk};
ghost use Rattle.schedule_run.specs.Events.{Asking};

use cm_base::exception::Exception;
use cm_base::text::{Text, Texts};
use desk_model::Machine;
use std::alloc::{AllocError, Global};

/// A machine that scripts can run over.
pub trait Scripted {
    type Kind: Machine;

    /// What scripts ask of the machine, and what is printed of its answers.
    ghost asks: { Asking Self.Kind.Call Self.Kind.Question Self.Kind.Shown Self.Kind.Cause };

    /// The call that makes a folder of this name in the root.
    fn folder(alloc: Global, name: Text) -> Result<<Self::Kind as Machine>::Call, AllocError>
        ensures { IfOk result (λ call. call ≡ (asks).folder name) };

    /// The question for the children of the root. It takes no memory.
    fn children(alloc: Global) -> <Self::Kind as Machine>::Question
        ensures { result ≡ (asks).children };

    /// The names that are shown in a reply.
    fn names(alloc: Global, shown: &<Self::Kind as Machine>::Shown) -> Result<Texts, AllocError>
        ensures { IfOk result (λ names. names ≡ (asks).names shown.now) };

    /// The exception of a cause.
    fn exception(cause: &<Self::Kind as Machine>::Cause) -> Exception
        ensures { result ≡ (asks).exception cause.now };
}
