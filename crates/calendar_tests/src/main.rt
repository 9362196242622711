//! The program `calendar_tests`: counts open days, as each line of its input asks. It also holds
//! the tests of `calendar`.
//!
//! A line has four words, separated by single blanks: a letter for each weekday, Monday first, `c`
//! if closed; the numbers of the single closed days, separated by commas, or `-` for none; the
//! number of a due day; the number of a day. For each line it writes the number of open days after
//! the due day, up to the day; the number of the least open day from the day on, or `none`; and how
//! many single closed days each of the two calls looked at. With the argument `times` it writes the
//! nanoseconds that each of these calls took, and that the same took day by day.
#![tactic(auto)]

mod answers;
mod day_by_day;
#[cfg(test)]
mod tests;

use answers::{count_open_days, find_open_day};
use calendar::{Calendar, Day, Weekdays};
use std::alloc::Global;
use std::env;
use std::io::{BufRead, BufReader};
use std::time::Instant;

/// What a line asks.
#[derive(Drop)]
struct Question {
    calendar: Calendar,
    due: Day,
    day: Day,
}

/// The weekdays that the letters close.
fn weekdays_of(letters: &str) -> Option<Weekdays> {
    let [a, b, c, d, e, f, g] = letters.as_bytes() else {
        return None;
    };
    let closed = [*a, *b, *c, *d, *e, *f, *g].map(|letter| letter == b'c');
    Weekdays::new(closed)
}

/// The day with that number.
fn day_of(number: &str) -> Option<Day> {
    Day::new(number.parse().ok()?)
}

/// The days with these numbers.
fn days_of(alloc: Global, numbers: &str) -> anyhow::Result<Vec<Day>> {
    let mut days = Vec::new(alloc);
    if numbers == "-" {
        return Ok(days);
    }
    for number in numbers.split(',') {
        let Some(day) = day_of(number) else {
            anyhow::bail!("no day has the number {number}");
        };
        days.push(day)?;
    }
    Ok(days)
}

/// What the line asks.
fn read(alloc: Global, line: &str) -> anyhow::Result<Question> {
    let mut words = line.split(' ');
    let weekly = words.next().and_then(weekdays_of);
    let numbers = words.next().unwrap_or("");
    let due = words.next().and_then(day_of);
    let day = words.next().and_then(day_of);
    let (Some(weekly), Some(due), Some(day)) = (weekly, due, day) else {
        anyhow::bail!("a line wants weekdays, single days, a due day and a day");
    };
    let days = days_of(alloc, numbers)?;
    let Ok(calendar) = Calendar::with_closed_days(alloc, weekly, &days) else {
        anyhow::bail!("no calendar has these single days");
    };
    Ok(Question { calendar, due, day })
}

/// Writes both answers, and at how many single closed days they looked.
fn answer(rt: &HostRuntime, question: &Question) -> anyhow::Result<()> {
    let (count, looks) = count_open_days(&question.calendar, question.due, question.day);
    let (least, more_looks) = find_open_day(&question.calendar, question.day);
    match least {
        Some(day) => println!(rt; "{count} {} {looks} {more_looks}", day.number())?,
        None => println!(rt; "{count} none {looks} {more_looks}")?,
    }
    Ok(())
}

/// Writes the nanoseconds of both calls and of their day-by-day forms.
fn measure(rt: &HostRuntime, question: &Question) -> anyhow::Result<()> {
    let Question { calendar, due, day } = question;
    let begin = Instant::now(rt)?;
    let count = calendar.open_days_after(*due, *day);
    let counted = begin.elapsed(rt)?;
    let begin = Instant::now(rt)?;
    let same_count = day_by_day::open_days_after(calendar, *due, *day);
    let counted_by_days = begin.elapsed(rt)?;
    let begin = Instant::now(rt)?;
    let least = calendar.least_open(*day);
    let found = begin.elapsed(rt)?;
    let begin = Instant::now(rt)?;
    let same_least = day_by_day::least_open(calendar, *day);
    let found_by_days = begin.elapsed(rt)?;
    if count != same_count || least != same_least {
        anyhow::bail!("the two forms differ");
    }
    println!(rt;
        "{} {} {} {}",
        counted.as_nanos(),
        counted_by_days.as_nanos(),
        found.as_nanos(),
        found_by_days.as_nanos()
    )?;
    Ok(())
}

fn main(rt: HostRuntime) -> anyhow::Result<()> {
    let mut words = env::args(&rt)?.skip(1);
    let is_measured = words.next().is_some_and(|word| word.as_str() == "times");
    for line in BufReader::new(rt.alloc(), rt.reader())?.lines(rt.alloc()) {
        let question = read(rt.alloc(), line?.as_str())?;
        if is_measured {
            measure(&rt, &question)?;
        } else {
            answer(&rt, &question)?;
        }
    }
    Ok(())
}
