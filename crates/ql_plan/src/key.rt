//! Keys: what a condition says of the objects at which it is true, so that they can be looked up.
ghost use Rattle.std.specs.Prelude.{◌≡◌, ◌∷◌, ◌++◌, All, IfOk, OnOk};
ghost use Rattle.cmis_spec.specs.Access.{oid_named};
ghost use Rattle.ql_plan.specs.Candidates.{key_of_compare, key_of_scalar, keys_by, keys_of};
ghost use Rattle.ql_plan.specs.Planned.{IsKeyBy, IsKeyOf};

use cm_base::decimal::read_u64;
use cm_base::items::Items;
use cm_base::number::Oid;
use cm_base::text::Text;
use cm_base::value::Scalar;
use ql_bind::bound::Condition;
use ql_tree::tree::Comparison;
use std::alloc::{AllocError, Global};

/// What the objects of a query must be.
#[derive(Clone, Copy, Debug, PartialEq, Eq, Drop)]
pub enum Key {
    /// The object of the number; none where the id is no number.
    Object(Option<Oid>),
    /// Filed in the folder.
    Folder(Option<Oid>),
}

/// Keys in the order of the condition.
pub type Keys = Items<Key>;

fn oid_named(id: &Text) -> Option<Oid>
    ensures { result ≡ oid_named id.now }
{
    match read_u64(id.bytes()) {
        Some(number) => Some(Oid(number)),
        None => None,
    }
}

fn add_scalar(all: &mut Keys, scalar: &Scalar) -> Result<(), AllocError>
    ensures { OnOk result (all.new ≡ all.old ++ key_of_scalar scalar.now) }
{
    match scalar {
        Scalar::Words(id) => {
            all.push(Key::Object(oid_named(id)))?;
            Ok(())
        }
        _ => Ok(()),
    }
}

fn add_compare(all: &mut Keys, id: &Text, by: Comparison, scalar: &Scalar) -> Result<(), AllocError>
    ensures { OnOk result (all.new ≡ all.old ++ key_of_compare id.now by scalar.now) }
{
    match by {
        Comparison::Equal => {
            if id.is_str("cmis:objectId") {
                add_scalar(all, scalar)
            } else {
                Ok(())
            }
        }
        _ => Ok(()),
    }
}

fn add_keys(all: &mut Keys, x: &Condition) -> Result<(), AllocError>
    ensures added { OnOk result (all.new ≡ all.old ++ keys_of x.now) }
    ensures hold { OnOk result (All (IsKeyOf x.now) (keys_of x.now)) }
{
    match x {
        Condition::And(a, b) => {
            add_keys(all, a.get())?;
            add_keys(all, b.get())
        }
        Condition::Compare(id, by, scalar) => add_compare(all, id, *by, scalar),
        Condition::InFolder(f) => {
            all.push(Key::Folder(*f))?;
            Ok(())
        }
        _ => Ok(()),
    }
}

/// The keys of a query's condition.
pub(crate) fn keys_by(alloc: Global, filter: &Option<Condition>) -> Result<Keys, AllocError>
    ensures keys { IfOk result (λ all. all ≡ keys_by filter.now) }
    ensures hold { IfOk result (λ all. All (IsKeyBy filter.now) all) }
{
    let mut all = Items::new(alloc);
    match filter {
        None => Ok(all),
        Some(x) => {
            add_keys(&mut all, x)?;
            Ok(all)
        }
    }
}
