//! Values of properties (CMIS 1.1, section 2.1.2.1).
ghost use Rattle.std.specs.Prelude.{◌≡◌, refl};
ghost use Rattle.core.specs.Ordering.{eq_by_cmp, as_partial_cmp};
ghost use Rattle.core.specs.Cmp.{IsTotalOrder, partial_equiv_from_equiv, eq_by_cmp_equiv, partial_order_from_total};
ghost use Rattle.cm_base.specs.Orders.{kind_place, scalar_order, value_order};
ghost use Rattle.cm_base.specs.OrderLaws.{TiesAreEqual, scalar_order-total, value_order-total, value_order-exact};

use crate::copies::Copies;
use crate::items::Items;
use crate::text::Text;
use std::alloc::{AllocError, Global};
use std::cmp::Ordering;

/// One scalar of a value. Strings, URIs, ids and HTML are texts; a moment is in milliseconds since 1970, UTC.
#[derive(Drop)]
pub enum Scalar {
    Flag(bool),
    Whole(i64),
    Time(i64),
    Words(Text),
}

/// A list of scalars.
pub type Scalars = Items<Scalar>;

/// The value of a property: unset, one scalar, or several.
#[derive(Drop)]
pub enum Value {
    Unset,
    One(Scalar),
    Many(Scalars),
}

/// A property's id and its value.
#[derive(Drop)]
pub struct Slot {
    pub id: Text,
    pub value: Value,
}

/// The values of an object, each id once.
pub type Values = Items<Slot>;

impl Scalar {
    // The place of its kind among the kinds.
    fn place(&self) -> u8
        ensures { result ≡ kind_place self.now }
    {
        match self {
            Scalar::Flag(_) => 0,
            Scalar::Whole(_) => 1,
            Scalar::Time(_) => 2,
            Scalar::Words(_) => 3,
        }
    }

    /// Scalars of different kinds in the order of the kinds, false before true, numbers and moments by size, texts by bytes.
    pub fn order(&self, other: &Scalar) -> Ordering
        ensures { result ≡ scalar_order self.now other.now }
    {
        match self {
            Scalar::Flag(a) => match other {
                Scalar::Flag(b) => a.cmp(b),
                _ => self.place().cmp(&other.place()),
            },
            Scalar::Whole(a) => match other {
                Scalar::Whole(b) => a.cmp(b),
                _ => self.place().cmp(&other.place()),
            },
            Scalar::Time(a) => match other {
                Scalar::Time(b) => a.cmp(b),
                _ => self.place().cmp(&other.place()),
            },
            Scalar::Words(a) => match other {
                Scalar::Words(b) => a.cmp(b),
                _ => self.place().cmp(&other.place()),
            },
        }
    }
}

impl PartialEq for Scalar {
    ghost eq = { eq_by_cmp scalar_order };

    ghost laws = { partial_equiv_from_equiv (eq_by_cmp_equiv scalar_order-total) };

    fn eq(&self, other: &Scalar) -> bool {
        self.order(other).is_eq()
    }
}

impl Eq for Scalar {
    ghost laws = { eq_by_cmp_equiv scalar_order-total };
}

impl PartialOrd for Scalar {
    ghost partial_cmp = { as_partial_cmp scalar_order };

    ghost laws = { partial_order_from_total scalar_order-total };

    fn partial_cmp(&self, other: &Scalar) -> Option<Ordering> {
        Some(self.order(other))
    }
}

impl Ord for Scalar {
    ghost cmp = { scalar_order };

    ghost total = { scalar_order-total };

    ghost matches_partial_cmp = { λ x y. refl };

    ghost matches_eq = { λ x y. refl };

    fn cmp(&self, other: &Scalar) -> Ordering {
        self.order(other)
    }
}

impl Value {
    /// Unset before one before several; one by the order of scalars, several by that of their items.
    /// It is a total order, and only equal values tie.
    pub fn order(&self, other: &Value) -> Ordering
        ensures order { result ≡ value_order self.now other.now }
        ensures total { IsTotalOrder value_order }
        ensures exact { TiesAreEqual value_order }
    {
        self.compared(other)
    }

    fn compared(&self, other: &Value) -> Ordering
        ensures { result ≡ value_order self.now other.now }
    {
        match self {
            Value::Unset => match other {
                Value::Unset => Ordering::Equal,
                Value::One(_) => Ordering::Less,
                Value::Many(_) => Ordering::Less,
            },
            Value::One(a) => match other {
                Value::Unset => Ordering::Greater,
                Value::One(b) => a.order(b),
                Value::Many(_) => Ordering::Less,
            },
            Value::Many(xs) => match other {
                Value::Unset => Ordering::Greater,
                Value::One(_) => Ordering::Greater,
                Value::Many(ys) => xs.as_slice().cmp(&ys.as_slice()),
            },
        }
    }
}

impl PartialEq for Value {
    ghost eq = { eq_by_cmp value_order };

    ghost laws = { partial_equiv_from_equiv (eq_by_cmp_equiv value_order-total) };

    fn eq(&self, other: &Value) -> bool {
        self.order(other).is_eq()
    }
}

impl Eq for Value {
    ghost laws = { eq_by_cmp_equiv value_order-total };
}

impl PartialOrd for Value {
    ghost partial_cmp = { as_partial_cmp value_order };

    ghost laws = { partial_order_from_total value_order-total };

    fn partial_cmp(&self, other: &Value) -> Option<Ordering> {
        Some(self.order(other))
    }
}

impl Ord for Value {
    ghost cmp = { value_order };

    ghost total = { value_order-total };

    ghost matches_partial_cmp = { λ x y. refl };

    ghost matches_eq = { λ x y. refl };

    fn cmp(&self, other: &Value) -> Ordering {
        self.order(other)
    }
}

impl Copies for Scalar {
    fn copied(&self, alloc: Global) -> Result<Scalar, AllocError> {
        match self {
            Scalar::Flag(flag) => Ok(Scalar::Flag(*flag)),
            Scalar::Whole(number) => Ok(Scalar::Whole(*number)),
            Scalar::Time(moment) => Ok(Scalar::Time(*moment)),
            Scalar::Words(text) => Ok(Scalar::Words(text.copied(alloc)?)),
        }
    }
}

impl Copies for Value {
    fn copied(&self, alloc: Global) -> Result<Value, AllocError> {
        match self {
            Value::Unset => Ok(Value::Unset),
            Value::One(scalar) => Ok(Value::One(scalar.copied(alloc)?)),
            Value::Many(scalars) => Ok(Value::Many(scalars.copied(alloc)?)),
        }
    }
}

impl Copies for Slot {
    fn copied(&self, alloc: Global) -> Result<Slot, AllocError> {
        Ok(Slot {
            id: self.id.copied(alloc)?,
            value: self.value.copied(alloc)?,
        })
    }
}
