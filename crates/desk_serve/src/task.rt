//! What a thread of its own does.
ghost use Rattle.std.specs.Prelude.{◌≡◌, IfOk, IfErr};

use std::thread::{Promise, PromisedHandle, Scope};

/// Something that is done once, and makes a value.
pub(crate) trait Task<T> {
    /// It may be done.
    ghost begins: { Self → Type 0 };

    /// What is told of the value that it makes.
    ghost makes: { Self → T → Type 0 };

    fn run(self) -> T
        requires { begins self }
        ensures { makes self result };
}

/// Does the task on a thread of the scope, or here where no thread can be made. What it makes keeps the promise.
pub(crate) fn started<
    's,
    E,
    T: Send + Drop + 's,
    J: Task<T> + Send + Drop + 's,
    P: Promise<T> + Drop,
>(scope: &Scope<'s, E>, promise: P, task: J) -> Result<PromisedHandle<T, P>, T>
    requires begins { J.begins task }
    requires keeps { (made : T) → J.makes task made → P.kept_by promise made }
    ensures started { IfOk result (λ handle. handle.promise ≡ promise) }
    ensures done { IfErr result (λ made. J.makes task made) }
{
    let run = move || -> T
        requires { J.begins task }
        ensures { J.makes task result }
    { task.run() };
    match scope.spawn_with::<P, _, T>(promise, run) {
        Ok(child) => Ok(child),
        Err(refused) => Err((refused.value)()),
    }
}
