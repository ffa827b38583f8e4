//! The workers of a run with what their threads hold.

ghost use Rattle.std.specs.Prelude.{◌≡◌, ◌≤◌, length, map, IfOk};
ghost use Rattle.vx_rows.specs.Lists.{each_below};
ghost use Rattle.vx_exec_parallel.specs.Places.{place_in};
ghost use Rattle.vx_exec_parallel.specs.Members.{worker_of, ends_of, number_of, seat_of};
ghost use Rattle.vx_rows_values.specs.Limits.{max_workers};

use crate::places::FragmentPlace;
use std::alloc::{AllocError, Global};
use vx_exec_spawn::CrewMember;
use vx_exec_threads::Ends;
use vx_worker::Worker;

/// Each worker, in their order, with its number, its place and its ends.
pub fn members_of<O: Drop, S: Drop>(
    alloc: Global,
    workers: Vec<Worker<O, S>>,
    ends: Vec<Ends>,
    places: &[FragmentPlace],
) -> Result<Vec<CrewMember<O, S>>, AllocError>
    requires ends { length ends.items ≡ length workers.items }
    requires places { length places.now ≡ length workers.items }
    requires few { length places.now ≤ max_workers }
    ensures workers { IfOk result (λ v. map worker_of v.items ≡ workers.items) }
    ensures ends { IfOk result (λ v. map ends_of v.items ≡ ends.items) }
    ensures places { IfOk result (λ v. map seat_of v.items ≡ map place_in places.now) }
    ensures numbers { IfOk result (λ v. map number_of v.items ≡ each_below (length workers.items) (λ i. i)) }
{
    let mut members = Vec::with_capacity(alloc, workers.len())?;
    let mut rest = ends.into_iter();
    let mut number = 0;
    for worker in workers {
        let Some(ends) = rest.next() else {
            unreachable!()
        };
        let at = places[number];
        members.push(CrewMember {
            number,
            fragment: at.fragment,
            place: at.place,
            worker,
            ends,
        })?;
        number += 1;
    }
    Ok(members)
}
