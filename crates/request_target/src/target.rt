//! The addresses of the Browser Binding.
ghost use Rattle.std.specs.Prelude.{◌≡◌, Ok, Err};
ghost use Rattle.cm_base.specs.declared.cause.Cause.TheVariants as causes;
ghost use Rattle.cm_base.specs.Judged.{Meets};
ghost use Rattle.request_target.specs.Targets.{below_main, below_cmis, address_of, target_at, target_of, query_of};

use crate::form::{locator, path_in, query_in};
use crate::path::{PathStop, path};
use cm_base::argument::Argument;
use cm_base::cause::Cause;
use cm_base::fail::Fail;
use cm_base::items::Items;
use cm_base::text::{Text, Texts};
use std::alloc::Global;

const PATH: &str = "path";

/// What a target addresses: the service, the repository, or an object by the names on its path from the root.
#[derive(Drop)]
pub enum Target {
    Service,
    Repository,
    Object(Texts),
}

fn below_main(alloc: Global, names: &[Text]) -> Result<Target, Fail>
    ensures { Meets (λ t. t) result (below_main names.now) }
{
    match names {
        [] => Ok(Target::Repository),
        [n, rest @ ..] => {
            if n.as_str() == "root" {
                let names = Items::copy_of(alloc, rest)?;
                Ok(Target::Object(names))
            } else {
                Err(Fail::Refused(Cause::NoUrl))
            }
        }
    }
}

fn below_cmis(alloc: Global, names: &[Text]) -> Result<Target, Fail>
    ensures { Meets (λ t. t) result (below_cmis names.now) }
{
    match names {
        [] => Ok(Target::Service),
        [n, rest @ ..] => {
            if n.as_str() == "main" {
                below_main(alloc, rest)
            } else {
                Err(Fail::Refused(Cause::NoUrl))
            }
        }
    }
}

fn address_of(alloc: Global, names: &[Text]) -> Result<Target, Fail>
    ensures { Meets (λ t. t) result (address_of names.now) }
{
    match names {
        [] => Err(Fail::Refused(Cause::NoUrl)),
        [n, rest @ ..] => {
            if n.as_str() == "cmis" {
                below_cmis(alloc, rest)
            } else {
                Err(Fail::Refused(Cause::NoUrl))
            }
        }
    }
}

fn target_at(alloc: Global, bytes: &[u8]) -> Result<Target, Fail>
    ensures { Meets (λ t. t) result (target_at bytes.now) }
{
    match path(alloc, bytes) {
        Ok(names) => address_of(alloc, &names),
        Err(PathStop::Bad) => Err(Fail::Refused(Cause::BadArgument(Argument::named(PATH)))),
        Err(PathStop::Memory) => Err(Fail::Memory),
    }
}

/// What a target addresses. A segment that is no UTF-8 is BadArgument `path`; another address is NoUrl.
pub fn target_of(alloc: Global, target: &[u8]) -> Result<Target, Fail>
    ensures { Meets (λ t. t) result (target_of target.now) }
{
    match locator(target) {
        Some(text) => target_at(alloc, path_in(text)),
        None => Err(Fail::Refused(Cause::NoUrl)),
    }
}

/// The query of a target.
pub fn query_of(target: &[u8]) -> &[u8]
    ensures { result.now ≡ query_of target.now }
{
    match locator(target) {
        Some(text) => query_in(text),
        None => &[],
    }
}
