//! Which of several inputs have ended, and which comes next: they take turns.

ghost use Rattle.std.specs.Prelude.{◌≡◌, ◌≤◌, ◌<◌, ℕ, length, slice_get, Some, IfNone, IfSome, true, false, slice_index_or};
ghost use Rattle.std.specs.List.{All, AllWithin};
ghost use Rattle.vx_exchange_ends.specs.InTurn.{IsInTurn, turn_of};

/// What may end, once.
pub trait MayEnd {
    ghost use Rattle.std.specs.Prelude.{◌≡◌, Bool};

    ghost ended: { Self → Bool };

    /// Whether it has ended.
    fn has_ended(&self) -> bool
        ensures { result ≡ ended self.now };
}

impl MayEnd for bool {
    ghost ended = { λ b. b };

    fn has_ended(&self) -> bool {
        *self
    }
}

// The first input that has not ended, from one place up to another.
fn first_open<E: MayEnd>(inputs: &[E], from: usize, to: usize) -> Option<usize>
    requires { to ≤ length inputs.now }
    ensures none { IfNone result (AllWithin (λ e. E.ended e ≡ true) inputs.now from to) }
    ensures within { IfSome result (λ i. i < length inputs.now) }
    ensures some { IfSome result (λ i. (d : E) → E.ended (slice_index_or inputs.now i d) ≡ false) }
    ensures behind { IfSome result (λ i. from ≤ i) }
    ensures first { IfSome result (λ i. AllWithin (λ e. E.ended e ≡ true) inputs.now from i) }
{
    for i in from..to {
        if !inputs[i].has_ended() {
            return Some(i);
        }
    }
    None
}

/// The next input from a place on that has not ended, or the first one at all.
pub fn next_open<E: MayEnd>(inputs: &[E], from: usize) -> Option<usize>
    ensures none { IfNone result (All (λ e. E.ended e ≡ true) inputs.now) }
    ensures within { IfSome result (λ i. i < length inputs.now) }
    ensures some { IfSome result (λ i. (d : E) → E.ended (slice_index_or inputs.now i d) ≡ false) }
    ensures in_turn { IfSome result (λ i. (k : ℕ) (d : E) → k < length inputs.now
        → turn_of from (length inputs.now) k < turn_of from (length inputs.now) i → E.ended (slice_index_or inputs.now k d) ≡ true) }
{
    if let Some(i) = first_open(inputs, from, inputs.len()) {
        return Some(i);
    }
    first_open(inputs, 0, inputs.len())
}

/// The next flag from a place on that is not set, or the first one at all.
pub fn next_unset(flags: &[bool], from: usize) -> Option<usize>
    ensures none { IfNone result ((k : ℕ) → k < length flags.now → slice_get flags.now k ≡ Some true) }
    ensures some { IfSome result (λ i. slice_get flags.now i ≡ Some false) }
    ensures in_turn { IfSome result (λ i. IsInTurn from flags.now i) }
{
    next_open(flags, from)
}
