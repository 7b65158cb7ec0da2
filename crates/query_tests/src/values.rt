//! Values of each kind and none, in their order.
use cm_base::items::Items;
use cm_base::text::Text;
use cm_base::value::{Scalar, Value};
use std::alloc::{AllocError, Global};
use std::cmp::Ordering;
use std::test::Fail;

fn words(alloc: Global, text: &str) -> Result<Value, AllocError> {
    Ok(Value::One(Scalar::Words(Text::from_str(alloc, text)?)))
}

// Two values, of which the first is false.
fn several(alloc: Global, second: Scalar) -> Result<Value, AllocError> {
    let mut items = Items::new(alloc);
    items.push(Scalar::Flag(false))?;
    items.push(second)?;
    Ok(Value::Many(items))
}

// The value at a place of a rising list of twelve.
fn value(alloc: Global, place: u8) -> Result<Value, AllocError> {
    match place {
        0 => Ok(Value::Unset),
        1 => Ok(Value::One(Scalar::Flag(false))),
        2 => Ok(Value::One(Scalar::Flag(true))),
        3 => Ok(Value::One(Scalar::Whole(-5))),
        4 => Ok(Value::One(Scalar::Whole(3))),
        5 => Ok(Value::One(Scalar::Time(-5))),
        6 => Ok(Value::One(Scalar::Time(5))),
        7 => words(alloc, "a"),
        8 => words(alloc, "aa"),
        9 => Ok(Value::Many(Items::new(alloc))),
        10 => several(alloc, Scalar::Flag(false)),
        _ => several(alloc, Scalar::Whole(-1)),
    }
}

#[test]
fn values_stand_in_order(rt: HostRuntime) -> Result<(), Fail> {
    for place in 0..11u8 {
        let low = value(rt.alloc(), place)?;
        let high = value(rt.alloc(), place + 1)?;
        assert!(rt; low.order(&high) == Ordering::Less, "{place}");
        assert!(rt; high.order(&low) == Ordering::Greater, "{place}");
        assert!(rt; low.order(&low) == Ordering::Equal, "{place}");
    }
    Ok(())
}
