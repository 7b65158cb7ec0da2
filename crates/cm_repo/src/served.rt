//! How sessions read the requests of the repository.
ghost use Rattle.std.specs.Prelude.{◌≡◌, Result};
ghost use Rattle.bind_read.specs.Calls.{call_of_request};
ghost use Rattle.cm_repo.specs.Requests.{least};
ghost use Rattle.cm_repo.specs.Numbers.{step_has_number, answer_has_number};
ghost use Rattle.http_caller.specs.Callers.{caller_of};
ghost use Rattle.http_wire.specs.Connections.{closes};

use crate::server_machine::ServerMachine;
use bind_read::call::call_of;
use cm_base::asked::Asked;
use cm_base::fail::Fail;
use cm_base::text::Text;
use cm_base::user::Users;
use cm_call::question::Question;
use cm_call::write::Write;
use http_caller::{caller_of, least_of};
use http_wire::{Head, Request};
use std::alloc::Global;
use talk::Served;

impl Served for ServerMachine {
    ghost call = { call_of_request };

    ghost user = { caller_of };

    ghost least = { least };

    ghost closes = { closes };

    fn call_of(alloc: Global, request: &Request) -> Result<Asked<Write, Question>, Fail> {
        call_of(alloc, request)
    }

    fn user_of(alloc: Global, head: &Head, users: &Users) -> Result<Text, Fail> {
        caller_of(alloc, head, users)
    }

    fn least_of(head: &Head) -> u64 {
        least_of(head).unwrap_or(0)
    }

    fn closes(head: &Head) -> bool {
        head.closes()
    }

    ghost entry_has_number = { λ s t e a h. step_has_number s t e a h };

    ghost answer_has_number = { λ s u q a h. answer_has_number s u q a h };
}
