//! A node of an index, as the file has it.

ghost use Rattle.std.specs.Prelude.{◌≡◌, ◌+◌, ◌-◌, ◌<◌, ◌≤◌, length, IfSome, None, true, false};
ghost use Rattle.station.specs.Bytes.{byte, InRange, Touched, Written};
ghost use Rattle.header_gate.specs.Header.{number};
ghost use Rattle.key_slot.specs.Format.{wide};
ghost use Rattle.key_slot.specs.declared.sizes.TheConstants.{MAX_KEY_LEN};
ghost use Rattle.index_file.specs.Node.{IsNode, is_node, fence_in, has_form as has_form_of, is_zero as is_zero_of};

use crate::sizes::{FENCE_AT, LINKS_AT, NODE_SIZE};
use byteorder::{ByteOrder, LittleEndian};
use header_gate::number_at;
use key_slot::{Key, key_room};

/// The bytes of a node with this fence and these links, which is one of the longer format.
pub(crate) fn node_bytes(fence: &Key, left: u32, right: u32) -> [u8; NODE_SIZE]
    ensures node { IsNode wide left right fence.now result 0 }
    ensures size { length result ≡ NODE_SIZE }
{
    let mut bytes = [0; NODE_SIZE];
    let text = fence.as_bytes();
    bytes[0] = text.len() as u8;
    put(&mut bytes, FENCE_AT, text);
    put_number(&mut bytes, LINKS_AT, left);
    put_number(&mut bytes, LINKS_AT + 4, right);
    bytes
}

/// The fence of the node at a place, if one with these links and a key of the slot format stands there.
#[tactic(auto, unfolding(crate::specs::Node::is_node))]
pub(crate) fn validate_node(
    bytes: &[u8],
    at: usize,
    left: u32,
    right: u32,
    format: u32,
) -> Option<Key>
    requires room { at + NODE_SIZE ≤ length bytes.now }
    requires format { format ≤ wide }
    ensures some { IfSome result (λ fence. IsNode format left right fence bytes.now at) }
    ensures none { result ≡ None → is_node format left right bytes.now at ≡ false }
{
    if !has_form(bytes, at, format) {
        return None;
    }
    if number_at(bytes, at + LINKS_AT) != left {
        return None;
    }
    if number_at(bytes, at + (LINKS_AT + 4)) != right {
        return None;
    }
    match Key::from_bytes(fence_bytes(bytes, at)) {
        Ok(fence) => Some(fence),
        Err(_) => None,
    }
}

// The bytes of the fence of a node at a place.
fn fence_bytes(bytes: &[u8], at: usize) -> &[u8]
    requires room { at + NODE_SIZE ≤ length bytes.now }
    requires some { 1 ≤ byte bytes.now at }
    requires most { byte bytes.now at ≤ MAX_KEY_LEN }
    ensures bytes { result.now ≡ fence_in bytes.now at }
    ensures some { 1 ≤ length result.now }
    ensures most { length result.now ≤ MAX_KEY_LEN }
{
    let first = at + FENCE_AT;
    let end = first + bytes[at] as usize;
    &bytes[first..end]
}

/// Puts the bytes at a place.
pub(crate) fn put(bytes: &mut [u8], at: usize, new: &[u8])
    requires { at + length new.now ≤ length bytes.old }
    ensures { Written at new.now bytes.old bytes.new }
{
    bytes[at..at + new.len()].copy_from_slice(new);
}

/// Puts a number at a place.
pub(crate) fn put_number(bytes: &mut [u8], at: usize, value: u32)
    requires { at + 4 ≤ length bytes.old }
    ensures written { number bytes.new at ≡ value }
    ensures rest { Touched (InRange at 4) bytes.old bytes.new }
{
    LittleEndian::write_u32(&mut bytes[at..], value);
}

// Whether what stands at a place has the form of a node of a file of the slot format, whatever its links.
#[tactic(auto, unfolding(crate::specs::Node::has_form))]
fn has_form(bytes: &[u8], at: usize, format: u32) -> bool
    requires room { at + NODE_SIZE ≤ length bytes.now }
    requires format { format ≤ wide }
    ensures { result ≡ has_form_of format bytes.now at }
{
    let size = bytes[at] as usize;
    if size < 1 {
        return false;
    }
    if size > key_room(format as usize) {
        return false;
    }
    if !is_zero(bytes, at + 1, FENCE_AT - 1) {
        return false;
    }
    if !is_zero(bytes, at + (FENCE_AT + size), LINKS_AT - FENCE_AT - size) {
        return false;
    }
    is_zero(bytes, at + (LINKS_AT + 8), 8)
}

// Whether that many bytes from a place on are zero.
fn is_zero(bytes: &[u8], at: usize, count: usize) -> bool
    requires { at + count ≤ length bytes.now }
    ensures { result ≡ is_zero_of bytes.now at count }
{
    for k in 0..count {
        if bytes[at + k] != 0 {
            return false;
        }
    }
    true
}
