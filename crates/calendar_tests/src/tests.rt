//! What no clause of `calendar` says: numbers and texts from outside, and one run of each call.
use crate::answers::{count_open_days, find_open_day};
use crate::day_by_day;
use calendar::{Calendar, CloseError, Day, Memory, ReopenError, Weekdays};
use std::alloc::Global;
use std::process::Abort;
use std::test::Fail;

/// The numbers of 1 January, from 2000 to 2200, as Python's `datetime` gives them.
static NEW_YEARS: [u32; 201] = [
    10957, 11323, 11688, 12053, 12418, 12784, 13149, 13514, 13879, 14245, 14610, 14975, 15340,
    15706, 16071, 16436, 16801, 17167, 17532, 17897, 18262, 18628, 18993, 19358, 19723, 20089,
    20454, 20819, 21184, 21550, 21915, 22280, 22645, 23011, 23376, 23741, 24106, 24472, 24837,
    25202, 25567, 25933, 26298, 26663, 27028, 27394, 27759, 28124, 28489, 28855, 29220, 29585,
    29950, 30316, 30681, 31046, 31411, 31777, 32142, 32507, 32872, 33238, 33603, 33968, 34333,
    34699, 35064, 35429, 35794, 36160, 36525, 36890, 37255, 37621, 37986, 38351, 38716, 39082,
    39447, 39812, 40177, 40543, 40908, 41273, 41638, 42004, 42369, 42734, 43099, 43465, 43830,
    44195, 44560, 44926, 45291, 45656, 46021, 46387, 46752, 47117, 47482, 47847, 48212, 48577,
    48942, 49308, 49673, 50038, 50403, 50769, 51134, 51499, 51864, 52230, 52595, 52960, 53325,
    53691, 54056, 54421, 54786, 55152, 55517, 55882, 56247, 56613, 56978, 57343, 57708, 58074,
    58439, 58804, 59169, 59535, 59900, 60265, 60630, 60996, 61361, 61726, 62091, 62457, 62822,
    63187, 63552, 63918, 64283, 64648, 65013, 65379, 65744, 66109, 66474, 66840, 67205, 67570,
    67935, 68301, 68666, 69031, 69396, 69762, 70127, 70492, 70857, 71223, 71588, 71953, 72318,
    72684, 73049, 73414, 73779, 74145, 74510, 74875, 75240, 75606, 75971, 76336, 76701, 77067,
    77432, 77797, 78162, 78528, 78893, 79258, 79623, 79989, 80354, 80719, 81084, 81450, 81815,
    82180, 82545, 82911, 83276, 83641, 84006,
];

/// Only Sundays are closed.
const SUNDAYS: [bool; 7] = [false, false, false, false, false, false, true];

fn check_day(rt: &impl Abort, alloc: Global, number: u32, written: &str) -> Result<(), Fail> {
    let day = Day::new(number).expect(rt, "a day");
    assert_eq!(rt; day.text(alloc)?.as_str(), written);
    assert_eq!(rt; Day::read(written), Some(day), "at {written}");
    assert_eq!(rt; day.number(), number);
    Ok(())
}

/// Walks through the months of a year, and returns the number after its last day.
fn check_year(
    rt: &impl Abort,
    alloc: Global,
    year: u32,
    new_year: u32,
    february: u32,
) -> Result<u32, Fail> {
    let lengths = [31, february, 31, 30, 31, 30, 31, 31, 30, 31, 30, 31];
    let mut number = new_year;
    for (month, length) in (1u32..).zip(lengths) {
        for day in 1..=length {
            let written = format!(in alloc; "{year}-{month:02}-{day:02}")?;
            check_day(rt, alloc, number, &written)?;
            number = number.wrapping_add(1);
        }
    }
    Ok(number)
}

#[test]
fn every_day(rt: HostRuntime) -> Result<(), Fail> {
    for index in 0..200 {
        let new_year = NEW_YEARS[index];
        let next = NEW_YEARS[index + 1];
        let february = if next.wrapping_sub(new_year) == 366 {
            29
        } else {
            28
        };
        let end = check_year(&rt, rt.alloc(), 2000 + index as u32, new_year, february)?;
        assert_eq!(rt; end, next);
    }
    Ok(())
}

#[test]
fn known_days(rt: HostRuntime) -> Result<(), Fail> {
    for (written, number) in [
        ("2000-01-01", 10957),
        ("2026-03-02", 20514),
        ("2199-12-31", 84005),
    ] {
        check_day(&rt, rt.alloc(), number, written)?;
    }
    assert_eq!(rt; Day::FIRST.number(), 10957);
    assert_eq!(rt; Day::LAST.number(), 84005);
    assert_eq!(rt; Day::new(10956), None);
    assert_eq!(rt; Day::new(84006), None);
    Ok(())
}

#[test]
fn refused_dates(rt: HostRuntime) {
    let texts = [
        "2026-02-30",
        "2100-02-29",
        "1999-12-31",
        "2200-01-01",
        "2026-3-1",
        "2026-03-012",
        "2026-03-0",
        "",
        "2026-00-10",
        "2026-13-01",
        "2026-03-00",
        "2026/03/01",
        "+026-03-01",
        " 2026-03-1",
        "2026-03-0\u{662}",
        "2026-03-\u{662}",
        "\u{662}\u{660}\u{662}\u{666}-\u{660}\u{663}-\u{660}\u{661}",
    ];
    for text in texts {
        assert_eq!(rt; Day::read(text), None, "at {text}");
    }
}

#[test]
fn weekday_masks(rt: HostRuntime) {
    assert_eq!(rt; Weekdays::new([true; 7]), None);
    let weekdays = Weekdays::new(SUNDAYS).expect(&rt, "open weekdays");
    assert_eq!(rt; weekdays.closed(), SUNDAYS);
}

fn day(rt: &impl Abort, text: &str) -> Day {
    Day::read(text).expect(rt, "a day")
}

fn sundays(rt: &impl Abort) -> Weekdays {
    Weekdays::new(SUNDAYS).expect(rt, "open weekdays")
}

/// Monday is first in the mask.
#[test]
fn weekdays_of_days(rt: HostRuntime) {
    let calendar = Calendar::new(rt.alloc(), sundays(&rt));
    assert!(rt; !calendar.is_open(day(&rt, "2026-03-01")));
    assert!(rt; calendar.is_open(day(&rt, "2026-03-02")));
    assert!(rt; calendar.is_open(day(&rt, "2026-03-07")));
    assert!(rt; !calendar.is_open(day(&rt, "2026-03-08")));
}

#[test]
fn closes_and_reopens(rt: HostRuntime) -> Result<(), Fail> {
    let mut calendar = Calendar::new(rt.alloc(), sundays(&rt));
    let sunday = day(&rt, "2026-03-08");
    let monday = day(&rt, "2026-03-09");
    let tuesday = day(&rt, "2026-03-10");
    assert_eq!(rt; calendar.least_open(sunday), Some(monday));

    calendar.close(monday)?;
    assert_eq!(rt; calendar.close(monday), Err(CloseError::AlreadyClosed));
    assert!(rt; calendar.is_closed_singly(monday));
    assert!(rt; !calendar.is_closed_singly(sunday));
    assert!(rt; !calendar.is_open(monday));
    assert_eq!(rt; calendar.least_open(sunday), Some(tuesday));

    calendar.reopen(monday)?;
    assert_eq!(rt; calendar.reopen(monday), Err(ReopenError::NotClosed));
    assert_eq!(rt; calendar.least_open(sunday), Some(monday));
    Ok(())
}

/// Of the days after Tuesday the 10th up to Tuesday the 17th, Sunday the 15th is closed.
#[test]
fn counts_open_days(rt: HostRuntime) -> Result<(), Fail> {
    let mut calendar = Calendar::new(rt.alloc(), sundays(&rt));
    let due = day(&rt, "2026-03-10");
    let today = day(&rt, "2026-03-17");
    assert_eq!(rt; calendar.open_days_after(due, today), 6);
    assert_eq!(rt; calendar.open_days_after(due, due), 0);
    assert_eq!(rt; calendar.open_days_after(today, due), 0);

    calendar.close(due)?;
    assert_eq!(rt; calendar.open_days_after(due, today), 6);
    calendar.close(today)?;
    assert_eq!(rt; calendar.open_days_after(due, today), 5);
    Ok(())
}

/// 2199-12-29 is a Sunday.
#[test]
fn no_open_day_is_left(rt: HostRuntime) -> Result<(), Fail> {
    let mut calendar = Calendar::new(rt.alloc(), sundays(&rt));
    let sunday = day(&rt, "2199-12-29");
    calendar.close(day(&rt, "2199-12-30"))?;
    assert_eq!(rt; calendar.least_open(sunday), Some(Day::LAST));
    calendar.close(Day::LAST)?;
    assert_eq!(rt; calendar.least_open(sunday), None);
    Ok(())
}

fn run_of(rt: &impl Abort, alloc: Global, start: u32, end: u32) -> Result<Vec<Day>, Memory> {
    let mut days = Vec::new(alloc);
    for number in start..end {
        days.push(Day::new(number).expect(rt, "a day"))?;
    }
    Ok(days)
}

#[test]
fn four_hundred_days_at_most(rt: HostRuntime) -> Result<(), Fail> {
    let days = run_of(&rt, rt.alloc(), 20000, 20400)?;
    let mut calendar = Calendar::with_closed_days(rt.alloc(), sundays(&rt), &days)?;
    assert!(rt; calendar.is_full());
    let next = day(&rt, "2026-03-02");
    assert_eq!(rt; calendar.close(next), Err(CloseError::Full));
    assert!(rt; !calendar.is_closed_singly(next));
    let closed = Day::new(20123).expect(&rt, "a day");
    assert_eq!(rt; calendar.close(closed), Err(CloseError::AlreadyClosed));

    calendar.reopen(closed)?;
    assert!(rt; !calendar.is_full());
    calendar.close(next)?;
    assert!(rt; calendar.is_full());
    Ok(())
}

#[test]
fn days_in_any_order(rt: HostRuntime) -> Result<(), Fail> {
    let monday = day(&rt, "2026-03-09");
    let tuesday = day(&rt, "2026-03-10");
    let calendar = Calendar::with_closed_days(rt.alloc(), sundays(&rt), &[tuesday, monday])?;
    assert!(rt; calendar.is_closed_singly(monday) && calendar.is_closed_singly(tuesday));
    assert!(rt; !calendar.is_full());

    let twice = Calendar::with_closed_days(rt.alloc(), sundays(&rt), &[monday, tuesday, monday]);
    assert_eq!(rt; twice.err(), Some(CloseError::AlreadyClosed));
    let mut days = run_of(&rt, rt.alloc(), 20000, 20401)?;
    let many = Calendar::with_closed_days(rt.alloc(), sundays(&rt), &days);
    assert_eq!(rt; many.err(), Some(CloseError::Full));
    days.push(Day::new(20000).expect(&rt, "a day"))?;
    let both = Calendar::with_closed_days(rt.alloc(), sundays(&rt), &days);
    assert_eq!(rt; both.err(), Some(CloseError::AlreadyClosed));
    Ok(())
}

/// 2026-03-09 is a Monday, and none of the more than 9,000 Sundays to the end is open.
#[test]
fn counts_over_a_lifetime(rt: HostRuntime) {
    let calendar = Calendar::new(rt.alloc(), sundays(&rt));
    let due = day(&rt, "2026-03-09");
    let today = day(&rt, "2190-12-31");
    assert_eq!(rt; calendar.open_days_after(due, today), 51_598);
    assert_eq!(rt; count_open_days(&calendar, due, today), (51_598, 0));
}

/// A branch that opens only on Mondays is closed on 400 of them.
#[test]
fn finds_the_day_after_400_closed_ones(rt: HostRuntime) -> Result<(), Fail> {
    let mondays = Weekdays::new([false, true, true, true, true, true, true]).expect(
        &rt,
        "open weekdays",
    );
    let mut calendar = Calendar::new(rt.alloc(), mondays);
    for week in 0..400 {
        calendar.close(Day::new(20521 + 7 * week).expect(&rt, "a day"))?;
    }
    let sunday = day(&rt, "2026-03-08");
    let monday = day(&rt, "2033-11-07");
    assert_eq!(rt; calendar.least_open(sunday), Some(monday));
    let (found, looks) = find_open_day(&calendar, sunday);
    assert_eq!(rt; found, Some(monday));
    assert!(rt; 400 <= looks && looks <= 409, "{looks} looks");
    let (count, looks) = count_open_days(&calendar, sunday, monday);
    assert_eq!(rt; count, 1);
    assert!(rt; 400 <= looks && looks <= 418, "{looks} looks");
    Ok(())
}

/// Each pair of 92 days from 2026-03-01.
fn check_pairs(rt: &impl Abort, calendar: &Calendar) {
    for due in 20513..20605 {
        let due = Day::new(due).expect(rt, "a day");
        assert_eq!(rt;
            calendar.least_open(due),
            day_by_day::least_open(calendar, due)
        );
        for today in 20513..20605 {
            let today = Day::new(today).expect(rt, "a day");
            let count = day_by_day::open_days_after(calendar, due, today);
            assert_eq!(rt; calendar.open_days_after(due, today), count);
        }
    }
}

/// The single days are none, some including the ends and a Sunday, and a whole month.
#[test]
fn every_pair_of_days_over_three_months(rt: HostRuntime) -> Result<(), Fail> {
    let mondays = Weekdays::new([false, true, true, true, true, true, true]).expect(
        &rt,
        "open weekdays",
    );
    for weekly in [Weekdays::all_open(), sundays(&rt), mondays] {
        let mut calendar = Calendar::new(rt.alloc(), weekly);
        check_pairs(&rt, &calendar);
        for number in [20604, 20520, 20521, 20513, 20550, 20535, 20549] {
            calendar.close(Day::new(number).expect(&rt, "a day"))?;
        }
        check_pairs(&rt, &calendar);
        let month = run_of(&rt, rt.alloc(), 20544, 20574)?;
        check_pairs(
            &rt,
            &Calendar::with_closed_days(rt.alloc(), weekly, &month)?,
        );
    }
    Ok(())
}
