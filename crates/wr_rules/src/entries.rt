//! The access control entries that a call asks for (CMIS 1.1, section 2.2.10.2).
ghost use Rattle.std.specs.Prelude.{◌≡◌, ◌++◌, [], ◌∷◌, IfOk, is_none, map};
ghost use Rattle.std.specs.List.{list_any};
ghost use Rattle.std.specs.Option.{option_to_list};
ghost use Rattle.cm_base.specs.declared.access.Level.TheVariants as levels;
ghost use Rattle.cm_acl.specs.Acl.{level_named, changed_aces};
ghost use Rattle.cmis_spec.specs.Well.{Apart, ComesBefore};
ghost use Rattle.wr_rules.specs.Rules.{has_unknown_permission, has_entries, aces_of, aces_in, new_aces};

use call_parts::writes::AceRequest;
use cm_acl::change::apply;
use cm_acl::level::read_level;
use cm_base::access::{Ace, Aces, Level};
use cm_base::copies::Copies;
use cm_base::items::Items;
use cm_base::text::Text;
use std::alloc::{AllocError, Global};

fn is_unknown(permission: &Text) -> bool
    ensures { result ≡ is_none (level_named permission.now) }
{
    read_level(permission).is_err()
}

fn has_unknown(permissions: &[Text]) -> bool
    ensures { result ≡ list_any (λ p. is_none (level_named p)) permissions.now }
{
    permissions.iter().any(|p| is_unknown(p))
}

/// Whether a permission is none of the three. Takes no memory.
pub fn has_unknown_permission(asked: &[AceRequest]) -> bool
    ensures { result ≡ has_unknown_permission asked.now }
{
    asked.iter().any(|a| has_unknown(a.permissions.as_slice()))
}

/// Whether an entry is asked for. Takes no memory.
pub fn has_entries(asked: &[AceRequest]) -> bool
    ensures { result ≡ has_entries asked.now }
{
    asked.iter().any(|a| a.permissions.len() > 0)
}

fn ace_of(alloc: Global, principal: &Text, level: Level) -> Result<Ace, AllocError>
    ensures { IfOk result (λ a. a ≡ record { principal = principal.now; level = level }) }
{
    Ok(Ace {
        principal: principal.copied(alloc)?,
        level,
    })
}

// The entries, with the one that the permission asks for.
fn with_permission(
    alloc: Global,
    aces: Aces,
    principal: &Text,
    permission: &Text,
) -> Result<Aces, AllocError>
    ensures { IfOk result (λ all. all ≡ aces ++ map (λ level. record { principal = principal.now; level = level })
        (option_to_list (level_named permission.now))) }
{
    let mut aces = aces;
    if let Ok(level) = read_level(permission) {
        aces.push(ace_of(alloc, principal, level)?)?;
    }
    Ok(aces)
}

// The entries, with those that a request asks for.
fn with_request(alloc: Global, aces: Aces, asked: &AceRequest) -> Result<Aces, AllocError>
    ensures { IfOk result (λ all. all ≡ aces ++ aces_of asked.now) }
{
    let mut all = aces;
    for permission in asked.permissions.as_slice() {
        all = with_permission(alloc, all, &asked.principal, permission)?;
    }
    Ok(all)
}

/// The entries that are asked for; what names no permission asks for none.
pub fn aces_in(alloc: Global, asked: &[AceRequest]) -> Result<Aces, AllocError>
    ensures { IfOk result (λ aces. aces ≡ aces_in asked.now) }
{
    let mut all = Items::new(alloc);
    for request in asked {
        all = with_request(alloc, all, request)?;
    }
    Ok(all)
}

fn own_aces(alloc: Global, maker: &Text) -> Result<Aces, AllocError>
    ensures { IfOk result (λ aces. aces ≡ record { principal = maker.now; level = levels.All } ∷ []) }
{
    let mut aces = Items::new(alloc);
    aces.push(ace_of(alloc, maker, Level::All)?)?;
    Ok(aces)
}

fn changed(
    alloc: Global,
    own: &Aces,
    remove: &[AceRequest],
    add: &[AceRequest],
) -> Result<Aces, AllocError>
    requires { Apart ComesBefore own.now }
    ensures list { IfOk result (λ aces. aces ≡ changed_aces own.now (aces_in remove.now) (aces_in add.now)) }
    ensures ordered { IfOk result (λ aces. Apart ComesBefore aces) }
{
    let remove = aces_in(alloc, remove)?;
    let add = aces_in(alloc, add)?;
    let aces = apply(alloc, own, &remove, &add)?;
    Ok(aces)
}

/// The list of a new object: cmis:all for its maker, less what is to be removed, and then what is to be added.
pub fn new_aces(
    alloc: Global,
    maker: &Text,
    remove: &[AceRequest],
    add: &[AceRequest],
) -> Result<Aces, AllocError>
    ensures list { IfOk result (λ aces. aces ≡ new_aces maker.now remove.now add.now) }
    ensures ordered { IfOk result (λ aces. Apart ComesBefore aces) }
{
    let own = own_aces(alloc, maker)?;
    match remove {
        [] => match add {
            [] => Ok(own),
            _ => changed(alloc, &own, remove, add),
        },
        _ => changed(alloc, &own, remove, add),
    }
}
