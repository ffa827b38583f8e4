//! The program's hash router.

ghost use Rattle.std.specs.Prelude.{◌≡◌, ◌≤◌, ◌<◌, ◌+◌, ◌*◌, ◌%◌, ◌^◌, ◌++◌, ◌∷◌, [], length, take, map, flat_map, All, IsTrue};
ghost use Rattle.std.specs.List.{fold};
ghost use Rattle.std.specs.Int.{w32, w64, to_be_bytes, cast_unsigned, IsPowerOfTwo};
ghost use Rattle.std.proofs.lemmas.Nat.{mod_below};
ghost use Rattle.vx_rows_values.specs.ValueView.{val_of};
ghost use Rattle.vx_plan_nodes.specs.ByteRouter.{hash_byte, value_bytes, key_hash, byte_route};

use crate::remainder::Remainders;
use vx_plan_nodes::Router;
use vx_rows_values::Value;

/// Sends a key by a hash of the route's name and of the key, over their bytes.
#[derive(Clone, Copy)]
pub struct ByteRouter;

fn hash_byte(hash: u32, byte: u8) -> u32
    ensures { result ≡ hash_byte hash byte }
{
    ((hash as u64 * 31 + byte as u64) % (1 << 32)) as u32
}

// The hash after four more bytes. None of the four waits for the one before it, as they would one by one.
fn hash_four(hash: u32, a: u8, b: u8, c: u8, d: u8) -> u32
    ensures { result ≡ fold hash_byte hash (a ∷ b ∷ c ∷ d ∷ []) }
{
    let of_four = a as u64 * 29791 + b as u64 * 961 + c as u64 * 31 + d as u64;
    ((hash as u64 * 923521 + of_four) % (1 << 32)) as u32
}

// The hash after the first bytes, four times as many as `fours`.
fn hash_fours(start: u32, bytes: &[u8], fours: usize) -> u32
    requires { fours * 4 ≤ length bytes.now }
    ensures { result ≡ fold hash_byte start (take (fours * 4) bytes.now) }
{
    let mut hash = start;
    for i in 0..fours {
        let at = i * 4;
        hash = hash_four(hash, bytes[at], bytes[at + 1], bytes[at + 2], bytes[at + 3]);
    }
    hash
}

fn hash_each(start: u32, bytes: &[u8]) -> u32
    ensures { result ≡ fold hash_byte start bytes.now }
{
    let mut hash = start;
    for byte in bytes {
        hash = hash_byte(hash, *byte);
    }
    hash
}

fn hash_bytes(start: u32, bytes: &[u8]) -> u32
    ensures { result ≡ fold hash_byte start bytes.now }
{
    let fours = bytes.len() / 4;
    hash_each(hash_fours(start, bytes, fours), &bytes[fours * 4..])
}

// The hash after the bytes of a number, the highest first. It is a step of its own for speed: most keys are numbers, and their bytes need
// no loop.
fn hash_number(start: u32, n: i64) -> u32
    ensures { result ≡ fold hash_byte start (to_be_bytes w64 (cast_unsigned w64 n)) }
{
    let b = n.cast_unsigned().to_be_bytes();
    let half = hash_four(start, b[0], b[1], b[2], b[3]);
    hash_four(half, b[4], b[5], b[6], b[7])
}

// The same, where `zeros` is the hash after four bytes that are 0: with these begins a number from 0 to 2^32 - 1, as most keys are.
fn hash_small(start: u32, zeros: u32, n: i64) -> u32
    requires { zeros ≡ fold hash_byte start (0 ∷ 0 ∷ 0 ∷ 0 ∷ []) }
    ensures { result ≡ fold hash_byte start (to_be_bytes w64 (cast_unsigned w64 n)) }
{
    let bits = n.cast_unsigned();
    if bits > 0xffff_ffff {
        return hash_number(start, n);
    }
    let b = (bits as u32).to_be_bytes();
    hash_four(zeros, b[0], b[1], b[2], b[3])
}

// Whether each of these is from 0 to 2^32 - 1.
fn are_small(keys: &[i64]) -> bool
    ensures { IsTrue result → All (λ key. cast_unsigned w64 key < 2 ^ 32) keys.now }
{
    let mut small = true;
    for key in keys {
        small &= key.cast_unsigned() <= 0xffff_ffff;
    }
    small
}

// The consumers of keys from 0 to 2^32 - 1 among `mask + 1`, a power of two. The loop has no branch and no division, so it is done for several
// keys at once.
fn route_small(zeros: u32, keys: &[i64], mask: u32, consumers: &mut [u32])
    requires many { length keys.now ≡ length consumers.old }
    requires small { All (λ key. cast_unsigned w64 key < 2 ^ 32) keys.now }
    requires power { IsPowerOfTwo (mask + 1) }
    ensures { consumers.new ≡ map (λ key. fold hash_byte zeros (to_be_bytes w32 (cast_unsigned w64 key)) % (mask + 1)) keys.now }
{
    for i in 0..consumers.len() {
        let b = (keys[i].cast_unsigned() as u32).to_be_bytes();
        consumers[i] = hash_four(zeros, b[0], b[1], b[2], b[3]) & mask;
    }
}

fn hash_value(start: u32, value: &Value) -> u32
    ensures { result ≡ fold hash_byte start (value_bytes (val_of value.now)) }
{
    match value {
        Value::Int(n) => hash_number(hash_byte(start, 1), *n),
        Value::Text(text) => hash_byte(hash_bytes(hash_byte(start, 2), text.as_bytes()), 0),
    }
}

fn hash_key(start: u32, key: &[Value]) -> u32
    ensures { result ≡ fold hash_byte start (flat_map value_bytes (map val_of key.now)) }
{
    let mut hash = start;
    for value in key {
        hash = hash_value(hash, value);
    }
    hash
}

// What the hash of each key of a route begins with.
fn hash_name(name: &str) -> u32
    ensures { result ≡ fold hash_byte 7 (name.now ++ 0 ∷ []) }
{
    hash_byte(hash_bytes(7, name.as_bytes()), 0)
}

impl Router for ByteRouter {
    ghost route_of = { λ _. byte_route };

    ghost in_range = { λ r name key n some. mod_below (key_hash name key) n some };

    fn route(&self, name: &str, key: &[Value], n: u32) -> u32 {
        hash_key(hash_name(name), key) % n
    }

    // What is the same for all keys is found once: the hash of the name, and what divides by n.
    fn route_numbers(&self, name: &str, keys: &[i64], n: u32, consumers: &mut [u32]) {
        let start = hash_byte(hash_name(name), 1);
        let zeros = hash_four(start, 0, 0, 0, 0);
        if n.is_power_of_two() && are_small(keys) {
            route_small(zeros, keys, n - 1, consumers);
            return;
        }
        let remainders = Remainders::by(n);
        for i in 0..keys.len() {
            consumers[i] = remainders.of(hash_small(start, zeros, keys[i]));
        }
    }
}
