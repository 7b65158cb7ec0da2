//! Objects whose names are put in any order, or twice, and the keys of a text that is read.
use json_text::read::{elements_at, flag_at, members_at, read_value, text_at, whole_at};
use json_text::tree::{Fields, Json};
use serde_json::Value;
use std::alloc::{AllocError, Global};
use std::test::Fail;

fn object(alloc: Global) -> Result<Vec<u8>, AllocError> {
    let mut fields = Fields::new(alloc);
    fields.put(alloc, "c", Json::count(18446744073709551615))?;
    fields.put(alloc, "b", Json::null())?;
    fields.put(alloc, "a", Json::whole(-7))?;
    fields.put(alloc, "b", Json::flag(true))?;
    Json::object(fields).to_vec(alloc)
}

#[test]
fn names_stand_in_byte_order(rt: HostRuntime) -> Result<(), Fail> {
    let text = object(rt.alloc())?;
    assert_eq!(rt;
        text.as_slice(),
        b"{\"a\":-7,\"b\":true,\"c\":18446744073709551615}".as_slice()
    );
    Ok(())
}

// The keys of {"t":"x","w":-5,"f":true,"z":null}.
fn have_their_kind(value: &Value) -> bool {
    text_at(value, "t") == Ok(Some("x"))
        && whole_at(value, "w") == Ok(Some(-5))
        && flag_at(value, "f") == Ok(Some(true))
        && text_at(value, "z") == Ok(None)
        && whole_at(value, "y") == Ok(None)
}

#[test]
fn keys_have_their_kind(rt: HostRuntime) {
    match read_value(rt.alloc(), "{\"t\":\"x\",\"w\":-5,\"f\":true,\"z\":null}") {
        Ok(value) => assert!(rt; have_their_kind(&value)),
        Err(_) => assert!(rt; false),
    }
}

// The keys of {"a":1.5,"m":{},"l":[1]}.
fn are_of_another_kind(value: &Value) -> bool {
    text_at(value, "a").is_err()
        && whole_at(value, "a").is_err()
        && flag_at(value, "a").is_err()
        && elements_at(value, "m").is_err()
        && elements_at(value, "l").is_ok()
        && members_at(value, "l").is_err()
        && members_at(value, "m").is_ok()
}

#[test]
fn keys_of_another_kind_are_refused(rt: HostRuntime) {
    match read_value(rt.alloc(), "{\"a\":1.5,\"m\":{},\"l\":[1]}") {
        Ok(value) => assert!(rt; are_of_another_kind(&value)),
        Err(_) => assert!(rt; false),
    }
}
