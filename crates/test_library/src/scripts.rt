//! Scripts on the small library: successive requests, each with its answer.

/// Two holds: one copy travels, the other stands ready.
pub const HOLDS: &str = "desk s1 place-hold 2 100 1 -> hold 1
desk s2 place-hold 3 100 2 -> hold 2
desk s3 check-in 10 2 -> fine 0 transit 1 for 1
desk s4 check-in 11 2 -> fine 0 ready 2 at 2 until 2026-03-05";

/// A lent copy that is lost and found.
pub const LOST: &str = "desk s1 check-out 1 10 1 -> loan 1 due 2026-03-09
desk s2 begin-day 2026-03-17 -> ok
desk s3 missing 10 -> fine 100 price 2500
desk s4 check-in 10 1 -> fine 0 shelf 1
desk s5 page 1 -> patron 1 owed 2600 name Ann Bell
desk s6 check-out 1 11 1 -> refused 38";

/// After all of that, the debt is paid, once.
pub const PAID: &str = "desk s1 check-out 1 10 1 -> loan 1 due 2026-03-09
desk s2 begin-day 2026-03-17 -> ok
desk s3 missing 10 -> fine 100 price 2500
desk s4 check-in 10 1 -> fine 0 shelf 1
desk s5 page 1 -> patron 1 owed 2600 name Ann Bell
desk s6 check-out 1 11 1 -> refused 38
desk p1 pay 1 2600 -> owed 0
desk p1 pay 1 2600 -> owed 0
desk p1 pay 1 2500 -> refused 80
desk p2 pay 1 1 -> refused 60";

/// A due day stays when a day is reopened.
pub const REOPENED: &str = "desk s1 close-day 1 2026-03-09 -> ok
desk s2 check-out 1 10 1 -> loan 1 due 2026-03-10
desk s3 open-day 1 2026-03-09 -> ok
desk s4 check-out 2 11 1 -> loan 2 due 2026-03-09";

/// An overdue loan isn't renewed, whoever stands in line.
pub const RENEWED: &str = "desk s1 check-out 1 10 1 -> loan 1 due 2026-03-09
desk s2 begin-day 2026-03-10 -> ok
desk s3 place-hold 2 100 1 -> hold 1
desk s4 renew 1 -> refused 41";

/// Nor is an ended or nonexistent one.
pub const RETURNED: &str = "desk s1 check-out 1 10 1 -> loan 1 due 2026-03-09
desk s2 check-in 10 1 -> fine 0 shelf 1
desk s3 renew 1 -> refused 40
desk s4 renew 9 -> refused 14";

/// A copy returned late.
pub const LATE: &str = "desk s1 check-out 1 10 1 -> loan 1 due 2026-03-09
desk s2 begin-day 2026-03-17 -> ok
desk c1 check-in 10 1 -> fine 100 shelf 1";

/// A copy returned late, within the grace days, and one whose loan has none.
pub const GRACE: &str = "desk s1 check-out 2 11 1 -> loan 1 due 2026-03-09
desk s2 grace 1 1 2 -> ok
desk s3 check-out 1 10 1 -> loan 2 due 2026-03-09
desk s4 begin-day 2026-03-11 -> ok
desk s5 check-in 10 1 -> fine 0 shelf 1
desk s6 check-in 11 1 -> fine 40 shelf 1";

/// All but the late one.
pub const SCRIPTS: [&str; 7] = [HOLDS, LOST, PAID, REOPENED, RENEWED, RETURNED, GRACE];
