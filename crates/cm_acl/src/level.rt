//! What an access control list permits (CMIS 1.1, section 2.1.12).
ghost use Rattle.std.specs.Prelude.{◌≡◌, ◌<◌, bytes_eq, Ok, Err};
ghost use Rattle.std.specs.List.{list_any};
ghost use Rattle.cm_base.specs.Judged.{find_or};
ghost use Rattle.cm_base.specs.declared.cause.Cause.TheVariants as causes;
ghost use Rattle.cmis_spec.specs.Access.{rank, greater, is_at_least, counts_for, granted};
ghost use Rattle.cm_acl.specs.Acl.{level_named};

use cm_base::access::{Ace, Aces, Level};
use cm_base::cause::Cause;
use cm_base::text::{Text, Texts};

// How many of the three permissions a level includes.
fn rank(level: Level) -> u8
    ensures { result ≡ rank level }
{
    match level {
        Level::None => 0,
        Level::Read => 1,
        Level::Write => 2,
        Level::All => 3,
    }
}

/// The greater of two levels.
pub fn greater(a: Level, b: Level) -> Level
    ensures { result ≡ greater a b }
{
    if rank(a) < rank(b) { b } else { a }
}

/// Whether a level includes the one that is needed: all includes write, and write includes read.
pub fn is_at_least(need: Level, level: Level) -> bool
    ensures { result ≡ is_at_least need level }
{
    rank(need) <= rank(level)
}

// Whether the text is among these.
fn is_among(texts: &Texts, text: &Text) -> bool
    ensures { result ≡ list_any (bytes_eq text.now) texts.now }
{
    texts.as_slice().iter().any(|other| text.is(other))
}

// Whether an entry counts for the user: its principal is he, one of his groups, or anyone.
fn counts_for(user: &Text, groups: &Texts, ace: &Ace) -> bool
    ensures { result ≡ counts_for user.now groups.now ace.now }
{
    ace.principal.is(user) || is_among(groups, &ace.principal) || ace.principal.is_str("anyone")
}

/// The greatest permission of the entries that count for the user, who is a member of these groups. It takes no memory.
pub fn level_of(list: &Aces, user: &Text, groups: &Texts) -> Level
    ensures { result ≡ granted list.now user.now groups.now }
{
    let mut best = Level::None;
    for ace in list.as_slice() {
        if counts_for(user, groups, ace) {
            best = greater(best, ace.level);
        }
    }
    best
}

/// The level that a permission names: cmis:read, cmis:write or cmis:all (section 2.1.12.3.1). It takes no memory.
pub fn read_level(text: &Text) -> Result<Level, Cause>
    ensures { result ≡ find_or causes.Permission (level_named text.now) }
{
    if text.is_str("cmis:read") {
        Ok(Level::Read)
    } else if text.is_str("cmis:write") {
        Ok(Level::Write)
    } else if text.is_str("cmis:all") {
        Ok(Level::All)
    } else {
        Err(Cause::Permission)
    }
}
