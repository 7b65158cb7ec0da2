//! The order of rows.
ghost use Rattle.std.specs.Prelude.{◌≡◌};
ghost use Rattle.ql_eval.specs.Order.{IsEachOnce, key_order, ordered, row_order, value_order_by};

use crate::eval::value_at;
use crate::row::{Row, Rows};
use cm_base::items::Items;
use cm_base::value::Value;
use ql_bind::bound::OrderKey;
use std::cmp::Ordering;

fn value_order_by(descending: bool, v: &Value, w: &Value) -> Ordering
    ensures { result ≡ value_order_by descending v.now w.now }
{
    if descending { w.order(v) } else { v.order(w) }
}

fn key_order(key: &OrderKey, a: &Row, b: &Row) -> Ordering
    ensures { result ≡ key_order key.now a.now b.now }
{
    let unset = Value::Unset;
    let v = value_at(a, &key.id, &unset);
    let w = value_at(b, &key.id, &unset);
    value_order_by(key.descending, v, w)
}

/// How two rows stand by the keys, and where these tie by the numbers of their objects. Takes no memory.
pub fn row_order(keys: &[OrderKey], a: &Row, b: &Row) -> Ordering
    ensures { result ≡ row_order keys.now a.now b.now }
{
    match keys {
        [] => a.id.0.cmp(&b.id.0),
        [key, rest @ ..] => match key_order(key, a, b) {
            Ordering::Less => Ordering::Less,
            Ordering::Equal => row_order(rest, a, b),
            Ordering::Greater => Ordering::Greater,
        },
    }
}

/// The rows in their order. Takes no memory.
pub fn ordered(rows: Rows, keys: &[OrderKey]) -> Rows
    requires { IsEachOnce rows }
    ensures { result ≡ ordered keys.now rows }
{
    let mut all = rows.into_vec();
    all.sort_unstable_by(|a, b| row_order(keys, a, b));
    Items::from_vec(all)
}
