//! Texts that lie in two halves: compared as if they were whole.

ghost use Rattle.std.specs.Prelude.{◌≡◌, ◌≤◌, ◌++◌, length, bytes_eq};
ghost use Rattle.std.specs.Ordering.{nat_cmp};
ghost use Rattle.std.specs.Cmp.Lexicographic.{slice_cmp};

use std::cmp::Ordering;

/// Whether a text is the two halves, one after the other.
pub fn is_text_of(text: &[u8], front: &[u8], back: &[u8]) -> bool
    ensures { result ≡ bytes_eq text.now (front.now ++ back.now) }
{
    if text.len() < front.len() {
        return false;
    }
    let (start, rest) = text.split_at(front.len());
    start == front && rest == back
}

// How a text compares with two halves.
fn compare_with_halves(text: &[u8], front: &[u8], back: &[u8]) -> Ordering
    ensures { result ≡ slice_cmp nat_cmp text.now (front.now ++ back.now) }
{
    if text.len() < front.len() {
        return text.cmp(&front);
    }
    let (start, rest) = text.split_at(front.len());
    let order = start.cmp(&front);
    if order.is_ne() {
        return order;
    }
    rest.cmp(&back)
}

// How two halves compare with two others, of which the front is no longer.
fn compare_longer(front: &[u8], back: &[u8], other_front: &[u8], other_back: &[u8]) -> Ordering
    requires { length other_front.now ≤ length front.now }
    ensures { result ≡ slice_cmp nat_cmp (front.now ++ back.now) (other_front.now ++ other_back.now) }
{
    let (start, rest) = front.split_at(other_front.len());
    let order = start.cmp(&other_front);
    if order.is_ne() {
        return order;
    }
    compare_with_halves(other_back, rest, back).reverse()
}

/// How two halves compare with two others, byte by byte.
pub fn compare_halves(front: &[u8], back: &[u8], other_front: &[u8], other_back: &[u8]) -> Ordering
    ensures { result ≡ slice_cmp nat_cmp (front.now ++ back.now) (other_front.now ++ other_back.now) }
{
    if other_front.len() <= front.len() {
        compare_longer(front, back, other_front, other_back)
    } else {
        compare_longer(other_front, other_back, front, back).reverse()
    }
}
