//! An append-only list, and beginnings of it.

ghost use Rattle.std.specs.Prelude.{◌≡◌};

use chronicle::{Beginning, Chronicle, Item};
use std::sync::Wait;
use std::test::Fail;

/// A number is itself in the list.
struct Itself;

impl Item<u32, u32> for Itself {
    ghost item = { λ n. n };
}

/// Two beginnings of a list of three: with one item, and with all.
fn beginnings<R: Wait>(rt: &R) -> (Beginning<u32>, Beginning<u32>)
    ensures { result.0.book ≡ result.1.book }
{
    let (chronicle, mut all) = Chronicle::new();
    chronicle.add::<u32, Itself, R>(rt, &mut all, &7);
    let first = all.again();
    chronicle.add::<u32, Itself, R>(rt, &mut all, &8);
    chronicle.add::<u32, Itself, R>(rt, &mut all, &9);
    (first, all)
}

#[test]
fn a_list_begins_with_what_was_seen_before(rt: HostRuntime) -> Result<(), Fail> {
    let (first, all) = beginnings(&rt);
    assert!(rt; first.len() == 1 && all.len() == 3);
    assert!(rt; first.begins(&all) && first.begins(&first) && !all.begins(&first));
    Ok(())
}
