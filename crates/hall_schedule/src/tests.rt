//! Schedules and the worlds they make, worked by hand.

use crate::Act::{Handle, Look, Publish, Submit};
use crate::{Act, Item, World, replay};
use std::test::Fail;

/// A worker, its request, and how many it had seen.
type Placed = (u64, u64, usize);

/// A schedule and its result.
struct Worked {
    acts: &'static [Act],
    submitted: [&'static [u64]; 8],
    queue: &'static [Placed],
    handled: &'static [Placed],
    published: usize,
    seen: [usize; 8],
}

const WORKED: [Worked; 8] = [
    // two workers submit one each
    Worked {
        acts: &[
            Submit(1, 7),
            Submit(2, 8),
            Handle,
            Publish,
            Look(1),
            Handle,
            Look(2),
        ],
        submitted: [&[7], &[8], &[], &[], &[], &[], &[], &[]],
        queue: &[],
        handled: &[(1, 7, 0), (2, 8, 0)],
        published: 1,
        seen: [1, 1, 0, 0, 0, 0, 0, 0],
    },
    // a worker that hasn't seen its last one handled can't submit
    Worked {
        acts: &[
            Submit(1, 7),
            Submit(2, 8),
            Handle,
            Publish,
            Look(1),
            Handle,
            Look(2),
            Submit(1, 9),
            Submit(2, 10),
        ],
        submitted: [&[7, 9], &[8], &[], &[], &[], &[], &[], &[]],
        queue: &[(1, 9, 1)],
        handled: &[(1, 7, 0), (2, 8, 0)],
        published: 1,
        seen: [1, 1, 0, 0, 0, 0, 0, 0],
    },
    // the impossible changes nothing
    Worked {
        acts: &[Handle, Look(9), Submit(0, 7)],
        submitted: [&[], &[], &[], &[], &[], &[], &[], &[]],
        queue: &[],
        handled: &[],
        published: 0,
        seen: [0, 0, 0, 0, 0, 0, 0, 0],
    },
    // all eight submit, filling the queue
    Worked {
        acts: &[
            Submit(1, 11),
            Submit(2, 12),
            Submit(3, 13),
            Submit(4, 14),
            Submit(5, 15),
            Submit(6, 16),
            Submit(7, 17),
            Submit(8, 18),
            Submit(1, 19),
            Handle,
            Handle,
            Handle,
            Handle,
            Handle,
            Handle,
            Handle,
            Handle,
            Publish,
            Look(3),
            Submit(3, 20),
        ],
        submitted: [&[11], &[12], &[13, 20], &[14], &[15], &[16], &[17], &[18]],
        queue: &[(3, 20, 8)],
        handled: &[
            (1, 11, 0),
            (2, 12, 0),
            (3, 13, 0),
            (4, 14, 0),
            (5, 15, 0),
            (6, 16, 0),
            (7, 17, 0),
            (8, 18, 0),
        ],
        published: 8,
        seen: [0, 0, 8, 0, 0, 0, 0, 0],
    },
    // handled but not yet shown
    Worked {
        acts: &[
            Submit(4, 7),
            Handle,
            Submit(5, 8),
            Handle,
            Look(4),
            Submit(4, 9),
            Publish,
            Look(4),
            Submit(4, 9),
            Handle,
        ],
        submitted: [&[], &[], &[], &[7, 9], &[8], &[], &[], &[]],
        queue: &[],
        handled: &[(4, 7, 0), (5, 8, 0), (4, 9, 2)],
        published: 2,
        seen: [0, 0, 0, 2, 0, 0, 0, 0],
    },
    // handled in queue order, not worker order
    Worked {
        acts: &[Submit(2, 8), Submit(1, 7), Submit(3, 9), Handle, Handle],
        submitted: [&[7], &[8], &[9], &[], &[], &[], &[], &[]],
        queue: &[(3, 9, 0)],
        handled: &[(2, 8, 0), (1, 7, 0)],
        published: 0,
        seen: [0, 0, 0, 0, 0, 0, 0, 0],
    },
    // a single worker
    Worked {
        acts: &[
            Submit(8, 7),
            Handle,
            Publish,
            Look(8),
            Submit(8, 8),
            Handle,
            Publish,
            Look(8),
            Submit(8, 9),
            Handle,
        ],
        submitted: [&[], &[], &[], &[], &[], &[], &[], &[7, 8, 9]],
        queue: &[],
        handled: &[(8, 7, 0), (8, 8, 1), (8, 9, 2)],
        published: 2,
        seen: [0, 0, 0, 0, 0, 0, 0, 2],
    },
    // nothing to show, and nonexistent workers
    Worked {
        acts: &[
            Publish,
            Look(1),
            Look(0),
            Submit(9, 7),
            Submit(u64::MAX, 7),
            Handle,
            Submit(1, 7),
            Publish,
            Look(2),
        ],
        submitted: [&[7], &[], &[], &[], &[], &[], &[], &[]],
        queue: &[(1, 7, 0)],
        handled: &[],
        published: 0,
        seen: [0, 0, 0, 0, 0, 0, 0, 0],
    },
];

fn has_lists(world: &World, worked: &Worked) -> bool {
    world
        .submitted
        .iter()
        .zip(worked.submitted.iter())
        .all(|(list, wanted)| list.as_slice() == *wanted)
}

fn is_placed(items: &[Item], placed: &[Placed]) -> bool {
    items.len() == placed.len()
        && items.iter().zip(placed.iter()).all(|(item, wanted)| (
            item.worker,
            item.request,
            item.seen,
        ) == *wanted)
}

fn is_as_worked(world: &World, worked: &Worked) -> bool {
    world.taken == worked.acts.len()
        && has_lists(world, worked)
        && world.queue.len() == worked.queue.len()
        && world.queue.iter().zip(worked.queue.iter()).all(|(item, wanted)| (
            item.worker,
            item.request,
            item.seen,
        ) == *wanted)
        && is_placed(world.handled.as_slice(), worked.handled)
        && world.published == worked.published
        && world.seen == worked.seen
}

#[test]
fn each_schedule_makes_its_world(rt: HostRuntime) -> Result<(), Fail> {
    for worked in &WORKED {
        let world = replay(rt.alloc(), worked.acts);
        assert!(rt; is_as_worked(&world, worked));
    }
    Ok(())
}
