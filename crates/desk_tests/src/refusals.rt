//! Scripts in memory, which `tests/gate/refused.py` runs with one memory request refused. A request
//! that met a fault is asked again: so the same rows are printed in each such run, unless a fault
//! changed something or had another cause, or the test had no memory for its own work. Standard
//! error has how many requests met a fault.

use crate::limits::shown;
use desk::Desk;
use sqlite::MemStore;
use std::alloc::Global;
use std::test::Fail;
use terms::Fault;
use test_library::{GROUND, SCRIPTS, handle, in_memory, request};

/// How a line was answered.
#[derive(Clone, Copy, PartialEq, Eq)]
enum Told {
    /// With what is after its arrow.
    Right,
    /// Out of memory, in the database or outside it.
    Refused,
    /// Anything else.
    Wrong,
}

/// Asks the request of a line.
fn ask(alloc: Global, desk: &mut Desk<MemStore>, line: &str) -> Result<Told, Fail> {
    let (said, wanted) = line.split_once(" -> ").ok_or("an arrow")?;
    let asked = request(alloc, said)?;
    match handle(desk, alloc, &asked) {
        Ok(reply) => {
            let text = format!(in alloc; "{reply}")?;
            Ok(if text.as_str() == wanted {
                Told::Right
            } else {
                Told::Wrong
            })
        }
        Err(Fault::Memory) | Err(Fault::Database) => Ok(Told::Refused),
        Err(_) => Ok(Told::Wrong),
    }
}

/// The rows of a separate library before the line at this place.
fn rows_before(alloc: Global, script: &str, at: usize) -> Result<String, Fail> {
    let mut desk = in_memory(alloc)?;
    for line in GROUND.split('\n').chain(script.split('\n')).take(at) {
        if ask(alloc, &mut desk, line)? != Told::Right {
            return Err("an answer".into());
        }
    }
    let (_, text) = shown(alloc, desk)?;
    Ok(text)
}

/// What follows a refused line: no row has changed, and when asked again it is answered.
fn ask_again(
    alloc: Global,
    desk: Desk<MemStore>,
    script: &str,
    (at, line): (usize, &str),
) -> Result<(Desk<MemStore>, bool), Fail> {
    let (mut desk, text) = shown(alloc, desk)?;
    let stays = text.as_str() == rows_before(alloc, script, at)?.as_str();
    let told = ask(alloc, &mut desk, line)?;
    Ok((desk, stays && told == Told::Right))
}

/// A script on a new library: its rows at the end, and how many requests were refused memory.
fn play(alloc: Global, script: &str) -> Result<(String, u32), Fail> {
    let mut desk = in_memory(alloc)?;
    let mut refused = 0u32;
    for (at, line) in GROUND.split('\n').chain(script.split('\n')).enumerate() {
        match ask(alloc, &mut desk, line)? {
            Told::Right => {}
            Told::Wrong => return Err("wrong: an answer".into()),
            Told::Refused => {
                let (next, is_right) = ask_again(alloc, desk, script, (at, line))?;
                desk = next;
                refused = refused.saturating_add(1);
                if !is_right {
                    return Err("wrong: what follows a fault".into());
                }
            }
        }
    }
    let (_, text) = shown(alloc, desk)?;
    Ok((text, refused))
}

#[test]
fn scripts_go_on_after_refused_memory(rt: HostRuntime) -> Result<(), Fail> {
    let mut all = 0u32;
    for script in &SCRIPTS {
        let (text, refused) = play(rt.alloc(), script)?;
        println!(rt; "{text}")?;
        all = all.saturating_add(refused);
    }
    eprintln!(rt; "refused: {all}")?;
    Ok(())
}
