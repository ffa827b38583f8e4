//! The two ends of a ring, made and brought together.

ghost use Rattle.std.specs.Prelude.{◌≡◌, ◌≤◌, ◌+◌, ◌++◌, [], length, IfOk};
ghost use Rattle.vx_ports.specs.Packets.{Flows};
ghost use Rattle.vx_ports_rings.specs.Ends.{IsRing, SameOut, SameIn, put_to, taken_from, seen_by, room_of, slack_of};
ghost use Rattle.vx_rows_values.specs.Limits.{max_slack};

use crate::ring::{RingIn, RingOut};
use std::alloc::{AllocError, Global};

/// The two ends of a ring with room for `slack` packets, 1 to 1,024. The first `slack` puts find room.
pub fn ring_pair(alloc: Global, slack: u32) -> Result<(RingOut, RingIn), AllocError>
    requires some { 1 ≤ slack }
    requires few { slack ≤ max_slack }
    ensures ring { IfOk result (λ r. IsRing r.0 r.1) }
    ensures fresh { IfOk result (λ r. (put_to r.0 ≡ []) × (taken_from r.1 ≡ [])) }
    ensures room { IfOk result (λ r. (slack_of r.0 ≡ slack) × (room_of r.0 ≡ slack)) }
{
    RingOut::pair(alloc, slack as usize)
}

/// Brings the two ends of one ring together, as after the join of their threads: what was taken is known to be a
/// prefix of what was put, in order, and all of it once the closing packet was taken. Each end then sees all that the
/// other did.
pub fn reunite(out: &mut RingOut, input: &mut RingIn)
    requires { IsRing out.old input.old }
    ensures out { (put_to out.new ≡ put_to out.old) × SameOut out.old out.new }
    ensures taken { (taken_from input.new ≡ taken_from input.old) × SameIn input.old input.new }
    ensures flows { Flows (put_to out.new) (taken_from input.new) }
    ensures seen { taken_from input.new ++ seen_by input.new ≡ put_to out.new }
    ensures room { slack_of out.new + length (taken_from input.new) ≤ room_of out.new + length (put_to out.new) }
{
    out.reunite(input)
}
