//! How many workers each size of a plan has in a run.

ghost use Rattle.std.specs.Prelude.{◌≡◌, ◌≤◌};
ghost use Rattle.std.specs.List.{All};
ghost use Rattle.vx_plan_nodes.specs.Outline.{size_of};
ghost use Rattle.vx_plan_nodes.specs.Streams.{workers};
ghost use Rattle.vx_plan_nodes.specs.Workers.{IsWithin, worker_group_at};
ghost use Rattle.vx_rows_values.specs.Limits.{max_group_workers};

use vx_plan_nodes::Size;

/// The number of workers of `size`. `worker_groups` holds the number of workers of each group, by the number of its size name.
pub fn workers_of(worker_groups: &[u32], size: Size) -> u32
    requires { All (IsWithin 1 max_group_workers) worker_groups.now }
    ensures count { result ≡ workers (worker_group_at worker_groups.now) (size_of size) }
    ensures some { 1 ≤ result }
    ensures few { result ≤ max_group_workers }
{
    match size {
        Size::One => 1,
        Size::Group(k) => match worker_groups.get(k) {
            Some(workers) => *workers,
            None => 1,
        },
    }
}
