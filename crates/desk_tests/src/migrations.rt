//! Migrations of an older library that are stopped: a fuse in one of its two files blows at each
//! call in turn, and what wasn't synced is lost, or not; or the database's steps are limited. The
//! tables are then the old ones, or those that a whole step leaves, and the migration is completed
//! afterwards.

use crate::calls::{connection_of, limit_steps, migrate};
use sqlite::{Alter, Connection, Files};
use sqlite_disk::{Disk, Fuse, Memory};
use std::alloc::Global;
use std::process::Abort;
use std::test::Fail;
use store::Store;
use terms::{Fault, SCHEMA};
use test_library::{
    calls_of_open, connection, filled, fused, ground, into_files, left, open, open_files, options,
    rows_of,
};

/// An older library: its schema, the texts that make it from the small one of the newest schema,
/// and its first hold's first day.
#[derive(Clone, Copy)]
struct Older {
    schema: u32,
    before: &'static str,
    texts: &'static str,
    first_day: &'static str,
}

/// What a library may have before schema 4: two tables fewer, and four of the last indexes.
const BEFORE_4: &str = "DROP TABLE barcodes;DROP TABLE notes;\
DROP INDEX copies_title;DROP INDEX lines_patron;DROP INDEX holds2_state;DROP INDEX copies_condition";

/// What it has before schema 3: two more tables fewer, two rules, an open loan and an ended one.
const BEFORE_3: &str = "DROP TABLE rules3;DROP TABLE loans3;\
INSERT INTO rules VALUES (1, 1, 6, 1, 20, 100), (1, 2, 12, 1, 20, 100);\
INSERT INTO loans VALUES (1, 11, 1, 1, 20514, 20521, 6, 1, 20, 100, NULL), (2, 20, 2, 2, 20500, 20513, 12, 0, 20, 100, 20514)";

/// A library of schema 1, with a hold in each state.
const FIRST: Older = Older {
    schema: 1,
    before: BEFORE_3,
    texts: "DROP TABLE holds2;UPDATE meta SET schema = 1, next_loan = 3, next_hold = 6;\
INSERT INTO holds VALUES (1, 1, 100, 1, 0, NULL, NULL), (2, 2, 100, 2, 1, 10, 20519), (3, 2, 200, 1, 2, NULL, NULL), (4, 3, 200, 2, 3, NULL, NULL), (5, 1, 300, 1, 4, NULL, NULL)",
    first_day: "none",
};

/// The same in schema 2, with a first day for the first hold.
const SECOND: Older = Older {
    schema: 2,
    before: BEFORE_3,
    texts: "UPDATE meta SET schema = 2, next_loan = 3, next_hold = 6;\
INSERT INTO holds2 VALUES (1, 1, 100, 1, 0, NULL, NULL, 20543), (2, 2, 100, 2, 1, 10, 20519, NULL), (3, 2, 200, 1, 2, NULL, NULL, NULL), (4, 3, 200, 2, 3, NULL, NULL, NULL), (5, 1, 300, 1, 4, NULL, NULL, NULL)",
    first_day: "20543",
};

/// The same in schema 3.
const THIRD: Older = Older {
    schema: 3,
    before: "INSERT INTO loans3 VALUES (1, 11, 1, 1, 20514, 20521, 6, 1, 20, 100, NULL, 0), (2, 20, 2, 2, 20500, 20513, 12, 0, 20, 100, 20514, 0)",
    texts: "UPDATE meta SET schema = 3, next_loan = 3, next_hold = 6;\
INSERT INTO holds2 VALUES (1, 1, 100, 1, 0, NULL, NULL, 20543), (2, 2, 100, 2, 1, 10, 20519, NULL), (3, 2, 200, 1, 2, NULL, NULL, NULL), (4, 3, 200, 2, 3, NULL, NULL, NULL), (5, 1, 300, 1, 4, NULL, NULL, NULL)",
    first_day: "20543",
};

/// The tables of a schema that a migration changes.
fn changed_tables(schema: u32) -> &'static str {
    match schema {
        1 => "meta rules loans holds",
        2 => "meta rules loans holds holds2",
        3 => "meta rules loans holds holds2 rules3 loans3",
        _ => "meta rules loans holds holds2 rules3 loans3 barcodes notes",
    }
}

/// The rows of these tables.
fn changed_rows(alloc: Global, schema: u32, first_day: &str) -> Result<String, Fail> {
    Ok(match schema {
        1 => format!(in alloc;
            "\n1|1|20514|3|6|1|;\
            \n1|1|6|1|20|100|;1|2|12|1|20|100|;\
            \n1|11|1|1|20514|20521|6|1|20|100|none|;2|20|2|2|20500|20513|12|0|20|100|20514|;\
            \n1|1|100|1|0|none|none|;2|2|100|2|1|10|20519|;3|2|200|1|2|none|none|;4|3|200|2|3|none|none|;5|1|300|1|4|none|none|;"
        )?,
        2 => format!(in alloc;
            "\n1|2|20514|3|6|1|;\
            \n1|1|6|1|20|100|;1|2|12|1|20|100|;\
            \n1|11|1|1|20514|20521|6|1|20|100|none|;2|20|2|2|20500|20513|12|0|20|100|20514|;\
            \n\
            \n1|1|100|1|0|none|none|{first_day}|;2|2|100|2|1|10|20519|none|;3|2|200|1|2|none|none|none|;4|3|200|2|3|none|none|none|;5|1|300|1|4|none|none|none|;"
        )?,
        _ => {
            let labels = if schema == 3 { "" } else { "\n\n" };
            format!(in alloc;
                "\n1|{schema}|20514|3|6|1|;\
                \n\
                \n\
                \n\
                \n1|1|100|1|0|none|none|{first_day}|;2|2|100|2|1|10|20519|none|;3|2|200|1|2|none|none|none|;4|3|200|2|3|none|none|none|;5|1|300|1|4|none|none|none|;\
                \n1|1|6|1|20|100|0|;1|2|12|1|20|100|0|;\
                \n1|11|1|1|20514|20521|6|1|20|100|none|0|;2|20|2|2|20500|20513|12|0|20|100|20514|0|;{labels}"
            )?
        }
    })
}

/// The other tables.
const OTHERS: &str = "branches closed_days kinds patrons titles copies transits lines kept";

/// A library's schema, the rows that a migration changes, and all others.
#[derive(Drop)]
struct Found {
    schema: u32,
    changed: String,
    others: String,
}

/// Makes an older library of one of the newest schema.
fn made_older<S: Alter>(conn: &mut Connection<S>, library: Older) -> Result<(), Fail> {
    for texts in [BEFORE_4, library.before, library.texts] {
        for text in texts.split(';') {
            conn.execute(text, &[])?;
        }
    }
    Ok(())
}

/// The two files of an older library.
fn older_files(alloc: Global, library: Older) -> Result<Files<Memory>, Fail> {
    let mut conn = connection_of(open_files(alloc, filled(alloc)?, options())?);
    made_older(&mut conn, library)?;
    Ok(into_files(open(conn)?))
}

/// The rows of a database.
fn look<S: Alter>(alloc: Global, conn: &mut Connection<S>) -> Result<Found, Fail> {
    let schema = conn.query_row("SELECT schema FROM meta", &[])?.get(0)?;
    let changed = rows_of(alloc, conn, changed_tables(schema))?;
    let others = rows_of(alloc, conn, OTHERS)?;
    Ok(Found {
        schema,
        changed,
        others,
    })
}

/// Whether a migration was done, or refused by the database.
fn told<S: Alter>(rt: &impl Abort, alloc: Global, store: &mut Store<S>) -> bool {
    match migrate(store, alloc) {
        Ok(()) => true,
        Err(fault) => {
            assert!(rt; fault == Fault::Database);
            false
        }
    }
}

/// The rows are those of the library's schema or a later one, and all others are unchanged.
fn are_whole(
    rt: &impl Abort,
    alloc: Global,
    found: &Found,
    library: Older,
    others: &str,
) -> Result<(), Fail> {
    let wanted = changed_rows(alloc, found.schema, library.first_day)?;
    assert!(rt; found.schema >= library.schema && found.schema <= SCHEMA);
    assert!(rt;
        found.changed.as_str() == wanted.as_str(),
        "{}",
        found.changed
    );
    assert!(rt; found.others.as_str() == others);
    Ok(())
}

/// The rows are whole, and the newest if the migration was reported done; otherwise it is made, and
/// then they are. Returns the schema found.
fn judge<S: Alter + Drop>(
    rt: &impl Abort,
    alloc: Global,
    mut conn: Connection<S>,
    is_done: bool,
    (library, others): (Older, &str),
) -> Result<u32, Fail> {
    let found = look(alloc, &mut conn)?;
    are_whole(rt, alloc, &found, library, others)?;
    let is_new = found.schema == SCHEMA;
    assert!(rt; is_new || !is_done);
    if !is_new {
        let mut store = open(conn)?;
        assert!(rt; told(rt, alloc, &mut store));
        let last = look(alloc, &mut connection_of(store))?;
        assert!(rt; last.schema == SCHEMA);
        are_whole(rt, alloc, &last, library, others)?;
    }
    Ok(found.schema)
}

/// The migration over two files: whether it was reported done, and the files as written.
fn migrated_in<D: Disk + Drop>(
    rt: &impl Abort,
    alloc: Global,
    files: Files<D>,
) -> Result<(bool, Files<D>), Fail> {
    let mut store = open_files(alloc, files, options())?;
    let is_done = told(rt, alloc, &mut store);
    Ok((is_done, into_files(store)))
}

/// How often a stop left each schema.
#[derive(Clone, Copy)]
struct Hits {
    first: u64,
    second: u64,
    third: u64,
    newest: u64,
}

impl Hits {
    /// Counts one more that left this schema.
    fn and(self, schema: u32) -> Hits {
        match schema {
            1 => Hits {
                first: self.first.saturating_add(1),
                ..self
            },
            2 => Hits {
                second: self.second.saturating_add(1),
                ..self
            },
            3 => Hits {
                third: self.third.saturating_add(1),
                ..self
            },
            _ => Hits {
                newest: self.newest.saturating_add(1),
                ..self
            },
        }
    }
}

/// One stop, after which each file may lose what wasn't synced; returns whether the migration was
/// reported done.
fn one_stop(
    rt: &impl Abort,
    alloc: Global,
    files: Files<Fuse<Memory>>,
    loses: (bool, bool),
    library: (Older, &str),
    hits: &mut Hits,
) -> Result<bool, Fail> {
    let (is_done, files) = migrated_in(rt, alloc, files)?;
    let conn = connection_of(open_files(alloc, left(alloc, files, loses)?, options())?);
    *hits = hits.and(judge(rt, alloc, conn, is_done, library)?);
    Ok(is_done)
}

/// The fuse blows at each call of the migration in turn, until it is reported done.
fn stops(rt: &impl Abort, alloc: Global, library: Older, is_log: bool) -> Result<Hits, Fail> {
    let base = older_files(alloc, library)?;
    let copy = fused(alloc, &base, (is_log, u64::MAX))?;
    let others = look(
        alloc,
        &mut connection_of(open_files(alloc, copy, options())?),
    )?
    .others;
    let first = calls_of_open(alloc, &base, is_log)?;
    let mut hits = Hits {
        first: 0,
        second: 0,
        third: 0,
        newest: 0,
    };
    for at in 1..1_200u64 {
        let mut is_done = true;
        for loses in [(false, false), (true, false), (false, true)] {
            let files = fused(alloc, &base, (is_log, first.saturating_add(at)))?;
            is_done = one_stop(rt, alloc, files, loses, (library, &others), &mut hits)? && is_done;
        }
        if is_done {
            return Ok(hits);
        }
    }
    Err("the migration was never told as done".into())
}

#[test]
fn a_stop_at_each_call_of_the_log_leaves_whole_steps(rt: HostRuntime) -> Result<(), Fail> {
    for library in [FIRST, SECOND, THIRD] {
        let hits = stops(&rt, rt.alloc(), library, true)?;
        let Hits {
            first,
            second,
            third,
            newest,
        } = hits;
        assert!(rt;
            (first > 4) == (library.schema < 2)
                && (second > 4) == (library.schema < 3)
                && third > 4
                && newest > 0,
            "{first} {second} {third} {newest}"
        );
    }
    Ok(())
}

#[test]
fn a_stop_at_each_call_of_the_database_leaves_whole_steps(rt: HostRuntime) -> Result<(), Fail> {
    for library in [FIRST, SECOND, THIRD] {
        let hits = stops(&rt, rt.alloc(), library, false)?;
        let Hits {
            first,
            second,
            third,
            newest,
        } = hits;
        assert!(rt;
            first
                .saturating_add(second)
                .saturating_add(third)
                .saturating_add(newest)
                > 4,
            "{first} {second} {third} {newest}"
        );
    }
    Ok(())
}

/// The migration under each limit on steps, from 1 up to the first under which it is done: until
/// then the rows are the old ones or those of a whole step. Returns how often it left the library's
/// old schema.
fn limits(rt: &impl Abort, alloc: Global, library: Older) -> Result<u64, Fail> {
    let mut conn = connection(ground(alloc)?);
    made_older(&mut conn, library)?;
    let others = look(alloc, &mut conn)?.others;
    let mut refused = 0u64;
    for limit in 1..1_200u64 {
        let mut store = open(conn)?;
        limit_steps(&mut store, Some(limit));
        let is_done = told(rt, alloc, &mut store);
        limit_steps(&mut store, None);
        conn = connection_of(store);
        let found = look(alloc, &mut conn)?;
        are_whole(rt, alloc, &found, library, &others)?;
        if is_done {
            assert!(rt; found.schema == SCHEMA);
            return Ok(refused);
        }
        assert!(rt; found.schema < SCHEMA);
        if found.schema == library.schema {
            refused = limit;
        }
    }
    Err("a limit under which the migration is made".into())
}

#[test]
fn a_limit_on_steps_leaves_whole_steps(rt: HostRuntime) -> Result<(), Fail> {
    for library in [FIRST, SECOND, THIRD] {
        let refused = limits(&rt, rt.alloc(), library)?;
        assert!(rt; refused > 0, "{refused}");
    }
    Ok(())
}
