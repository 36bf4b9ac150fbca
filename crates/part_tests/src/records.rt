//! Keys and records of given bytes, as tests use them.

use key_slot::{Key, Row, Value};
use std::process::Abort;

/// The key of these bytes.
pub fn key(rt: &impl Abort, bytes: &[u8]) -> Key {
    Key::from_bytes(bytes).expect(rt, "a key")
}

/// The record of a key and a value.
pub fn row(rt: &impl Abort, bytes: &[u8], value: &[u8]) -> Row {
    Row {
        key: key(rt, bytes),
        value: Value::from_bytes(value).expect(rt, "a value"),
    }
}
