//! What is asked about the repository.
ghost use Rattle.std.specs.Prelude.{◌≡◌};
ghost use Rattle.cm_base.specs.Judged.{Meets};
ghost use Rattle.bind_readings.specs.Types.{is_service, info_of};

use bind_parts::asking::Asking;
use cm_base::copies::Copies;
use cm_base::fail::Fail;
use request_target::target::Target;
use std::alloc::Global;
use type_parts::readings::ReadInfo;

fn is_service(target: &Target) -> bool
    ensures { result ≡ is_service target.now }
{
    match target {
        Target::Service => true,
        Target::Repository => false,
        Target::Object(_) => false,
    }
}

/// The question of the selector repositoryInfo, and of no selector at the addresses of the repository and of the service; it has
/// no arguments.
pub fn info_of(alloc: Global, asking: &Asking) -> Result<ReadInfo, Fail>
    ensures { Meets (λ c. c) result (info_of asking.now) }
{
    let host = asking.host.copied(alloc)?;
    Ok(ReadInfo {
        host,
        all: is_service(&asking.address),
    })
}
