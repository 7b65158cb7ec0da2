//! The access control entries that a form gives.
ghost use Rattle.std.specs.Prelude.{◌≡◌, IfOk};
ghost use Rattle.std.specs.List.{list_any};
ghost use Rattle.cm_base.specs.Judged.{Meets};
ghost use Rattle.form_args.specs.Entries.{ace_at, aces_from, is_empty, aces_of};

use crate::lists::{indexed, texts};
use crate::pairs::Pairs;
use call_parts::writes::{AceRequest, AceRequests};
use cm_base::argument::Argument;
use cm_base::cause::Cause;
use cm_base::copies::Copies;
use cm_base::fail::Fail;
use cm_base::items::Items;
use cm_base::text::Text;
use std::alloc::{AllocError, Global};

fn ace_at(
    alloc: Global,
    pairs: &Pairs,
    permission: &str,
    i: usize,
    who: &Text,
) -> Result<AceRequest, AllocError>
    ensures { IfOk result (λ a. a ≡ ace_at pairs.now permission.now i who.now) }
{
    let key = indexed(alloc, permission, i)?;
    Ok(AceRequest {
        principal: who.copied(alloc)?,
        permissions: texts(alloc, pairs, key.as_str())?,
    })
}

fn aces_by(
    alloc: Global,
    pairs: &Pairs,
    permission: &str,
    principals: &[Text],
) -> Result<AceRequests, AllocError>
    ensures { IfOk result (λ v. v ≡ aces_from pairs.now permission.now 0 principals.now) }
{
    let mut aces = Vec::new(alloc);
    for (i, who) in principals.iter().enumerate() {
        aces.push(ace_at(alloc, pairs, permission, i, who)?)?;
    }
    Ok(Items::from_vec(aces))
}

fn is_empty(text: &Text) -> bool
    ensures { result ≡ is_empty text.now }
{
    text.as_str().is_empty()
}

fn has_empty(texts: &[Text]) -> bool
    ensures { result ≡ list_any is_empty texts.now }
{
    texts.iter().any(|t| is_empty(t))
}

/// The entries that a form gives under these two names, such as addACEPrincipal and addACEPermission. An empty principal is
/// BadArgument of the first name.
pub fn aces(
    alloc: Global,
    pairs: &Pairs,
    principal: &'static str,
    permission: &str,
) -> Result<AceRequests, Fail>
    ensures { Meets (λ v. v) result (aces_of pairs.now principal.now permission.now) }
{
    let principals = texts(alloc, pairs, principal)?;
    if has_empty(principals.as_slice()) {
        return Err(Fail::Refused(Cause::BadArgument(Argument::named(principal))));
    }
    Ok(aces_by(alloc, pairs, permission, principals.as_slice())?)
}
