//! What is to be shown of objects beside their properties, and which version.
ghost use Rattle.std.specs.Prelude.{◌≡◌};
ghost use Rattle.cm_base.specs.Judged.{Meets};
ghost use Rattle.bind_readings.specs.Includes.{includes_of, relationships_named, relationships_of, version_named, version_of};

use crate::filter::included_filter;
use cm_base::argument::Argument;
use cm_base::cause::Cause;
use cm_base::fail::Fail;
use form_args::choice::flag;
use form_args::pairs::Pairs;
use include_parts::readings::{IncludeRelationships, Includes, ReturnVersion};
use std::alloc::Global;

const INCLUDE_ACL: &str = "includeACL";

const INCLUDE_ALLOWABLE_ACTIONS: &str = "includeAllowableActions";

const INCLUDE_POLICY_IDS: &str = "includePolicyIds";

const INCLUDE_RELATIONSHIPS: &str = "includeRelationships";

const RETURN_VERSION: &str = "returnVersion";

fn relationships_named(word: &str) -> Option<IncludeRelationships>
    ensures { result ≡ relationships_named word.now }
{
    if word == "none" {
        Some(IncludeRelationships::Nothing)
    } else if word == "source" {
        Some(IncludeRelationships::Source)
    } else if word == "target" {
        Some(IncludeRelationships::Target)
    } else if word == "both" {
        Some(IncludeRelationships::Both)
    } else {
        None
    }
}

fn relationships_of(pairs: &Pairs) -> Result<IncludeRelationships, Cause>
    ensures { result ≡ relationships_of pairs.now }
{
    match pairs.first(INCLUDE_RELATIONSHIPS) {
        None => Ok(IncludeRelationships::Nothing),
        Some(word) => match relationships_named(word.as_str()) {
            Some(relationships) => Ok(relationships),
            None => Err(Cause::BadArgument(Argument::named(INCLUDE_RELATIONSHIPS))),
        },
    }
}

fn version_named(word: &str) -> Option<ReturnVersion>
    ensures { result ≡ version_named word.now }
{
    if word == "this" {
        Some(ReturnVersion::This)
    } else if word == "latest" {
        Some(ReturnVersion::Latest)
    } else if word == "latestmajor" {
        Some(ReturnVersion::LatestMajor)
    } else {
        None
    }
}

/// The version that is asked for, and the one that is addressed where none is. Another word is BadArgument.
pub fn version_of(pairs: &Pairs) -> Result<ReturnVersion, Cause>
    ensures { result ≡ version_of pairs.now }
{
    match pairs.first(RETURN_VERSION) {
        None => Ok(ReturnVersion::This),
        Some(word) => match version_named(word.as_str()) {
            Some(version) => Ok(version),
            None => Err(Cause::BadArgument(Argument::named(RETURN_VERSION))),
        },
    }
}

/// What is to be shown beside the properties, or the first cause of these arguments.
#[tactic(auto, using(cm_types::proofs::Exits::fails_bind))]
pub fn includes_of(alloc: Global, pairs: &Pairs) -> Result<Includes, Fail>
    ensures { Meets (λ i. i) result (includes_of pairs.now) }
{
    let actions = flag(pairs, INCLUDE_ALLOWABLE_ACTIONS, false)?;
    let relationships = relationships_of(pairs)?;
    let policy_ids = flag(pairs, INCLUDE_POLICY_IDS, false)?;
    let acl = flag(pairs, INCLUDE_ACL, false)?;
    let renditions = included_filter(alloc, pairs)?;
    Ok(Includes {
        actions,
        relationships,
        renditions,
        policy_ids,
        acl,
    })
}
