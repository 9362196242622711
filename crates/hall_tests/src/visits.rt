//! Halls of two workers, both asked by one thread, with the desk beside it.

ghost use Rattle.std.specs.Prelude.{◌≡◌};
ghost use Rattle.model.specs.History.{History};
ghost use Rattle.hall.specs.Openings.{OpensWith};

use crate::calls::{close, handle_all, leave, limit_side, open_hall, open_queue, take_in};
use desk::Desk;
use hall::{DeskSide, Left, Opened, Opening, Worker};
use sqlite::Alter;
use std::alloc::Global;
use std::marker::Brand;
use std::process::Abort;
use std::sync::Wait;
use std::test::Fail;
use std::thread;
use std::thread::Threads;
use terms::ServiceFault;

/// What two workers are asked.
pub trait Visit: Copy + Send + 'static {
    /// What came of it.
    type Found: Drop + Send + 'static;

    /// Asks them. None if memory ran out.
    fn ask<J: Opening, R: Wait>(
        self,
        rt: &R,
        alloc: Global,
        one: &mut Worker<J>,
        two: &mut Worker<J>,
    ) -> Option<Self::Found>;
}

/// Both workers are asked, and leave.
fn visit_both<J: Opening, R: Wait, V: Visit>(
    rt: &R,
    alloc: Global,
    mut all: Vec<Worker<J>>,
    visit: V,
) -> Option<(Left<J>, Left<J>, Option<V::Found>)> {
    let mut two = all.pop()?;
    let mut one = all.pop()?;
    let found = visit.ask(rt, alloc, &mut one, &mut two);
    Some((leave(rt, one), leave(rt, two), found))
}

/// The outcome of a hall: what came of the visit, if both workers took part to the end; the desk;
/// the number of handled submissions; and the fault that closed the hall.
pub type Met<S, F> = (Option<F>, Desk<S>, u64, Option<ServiceFault>);

/// A thread visits the workers, and this one is the desk's.
pub fn meet<
    J: Opening + Send + Sync + 'static,
    S: Alter,
    R: Threads + Wait + Abort + Copy + Send + 'static,
    V: Visit,
>(rt: R, alloc: Global, side: DeskSide<J, S>, all: Vec<Worker<J>>, visit: V) -> Met<S, V::Found>
    requires { OpensWith J.shows S.Store side.desk side.publisher.shown }
{
    let started = thread::spawn(&rt, move || visit_both(&rt, alloc, all, visit)).ok();
    // the desk would wait forever for workers without a thread
    assert!(&rt; started.is_some(), "no thread");
    let (desk, mut ended, fault) = handle_all(&rt, alloc, side);
    let visited = match started {
        Some(thread) => thread.join(&rt),
        None => None,
    };
    let found = match visited {
        Some((one, two, found)) => {
            let took_part = take_in(&mut ended, one) && take_in(&mut ended, two);
            if took_part { found } else { None }
        }
        None => None,
    };
    (found, desk, close(&rt, ended), fault)
}

/// A hall over a desk, whose database may have limited steps: its outcome, or the number of the
/// reason why it wasn't opened, and the desk.
pub type Tried<S, F> = Result<Met<S, F>, (u32, Desk<S>)>;

/// Opens a hall on this queue, has its workers visited, and ends it.
fn run_hall<
    J: Opening + Send + Sync + 'static,
    S: Alter,
    R: Threads + Wait + Abort + Copy + Send + 'static,
    V: Visit,
>(
    rt: R,
    alloc: Global,
    opened: Opened,
    desk: Desk<S>,
    limit: Option<u64>,
    visit: V,
) -> Tried<S, V::Found>
    requires name { (opened.queue ≡ J.name) × (opened.blank ≡ J.book) }
    requires none { (H : History) → J.shows H → ⊥ }
{
    let (mut side, all) = open_hall::<J, S, R>(&rt, alloc, opened, desk, 2)?;
    limit_side(&mut side, limit);
    Ok(meet(rt, alloc, side, all, visit))
}

/// The same with its own queue.
pub fn run_over<S: Alter + Drop, R: Threads + Wait + Abort + Copy + Send + 'static, V: Visit>(
    rt: R,
    alloc: Global,
    desk: Desk<S>,
    limit: Option<u64>,
    visit: V,
) -> Result<Tried<S, V::Found>, Fail> {
    let opened = open_queue(alloc)?;
    Ok(run_hall::<Brand, S, R, V>(rt, alloc, opened, desk, limit, visit))
}
