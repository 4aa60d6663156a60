//! Moments as they are written in a period.
ghost use Rattle.std.specs.Prelude.{◌≡◌, ◌+◌, ◌/◌, ◌%◌, ◌∷◌, ◌++◌, [], ◌<◌, ◌≤◌, neg_ℤ, pos, ◌+ℤ◌, IfOk, OnOk};
ghost use Rattle.jiff.specs.Words.{epoch_day, IsYmd};
ghost use Rattle.ix_base.specs.Days.{day_at};
ghost use Rattle.instance_lines.specs.Moments.{two_digits, date_text, clock_text, time_text, start_text, end_text};
ghost use Rattle.instance_lines.specs.Writable.{IsStart, IsEnd};

use ix_base::{NoMemory, Text};
use jiff::ToSpan;
use jiff::civil::{Date, date};
use std::alloc::Global;

const DAY: u64 = 86_400;

/// The first day.
fn first_day() -> Date
    ensures { IsYmd (pos 1) (pos 1) (pos 1) result }
{
    date(1, 1, 1)
}

/// The day so many days after 0001-01-01.
fn day_after(days: u64) -> Date
    requires { days ≤ 3652058 }
    ensures { epoch_day result ≡ neg_ℤ (pos 719162) +ℤ pos days }
{
    let first = first_day();
    match first.checked_add((days as i64).days()) {
        Ok(date) => date,
        Err(_) => first,
    }
}

/// The day so many days after 0001-01-01 as `YYYY-MM-DD`.
fn day_text(alloc: Global, days: u64) -> Result<Text, NoMemory>
    requires { days ≤ 3652058 }
    ensures { IfOk result (λ t. t ≡ date_text (day_at days)) }
{
    let day = day_after(days).to_string(alloc)?;
    Text::of(alloc, day.as_str())
}

/// A decimal digit.
fn digit(n: u64) -> &'static str
    requires { n < 10 }
    ensures { result.now ≡ (48 + n) ∷ [] }
{
    match n {
        0 => "0",
        1 => "1",
        2 => "2",
        3 => "3",
        4 => "4",
        5 => "5",
        6 => "6",
        7 => "7",
        8 => "8",
        _ => "9",
    }
}

/// Appends a number in two digits.
fn push_two(n: u64, out: &mut Text) -> Result<(), NoMemory>
    requires { n < 100 }
    ensures { OnOk result (out.new ≡ out.old ++ two_digits n) }
{
    out.push(digit(n / 10))?;
    out.push(digit(n % 10))?;
    Ok(())
}

/// Appends the time of a day, of seconds since its start, as `hh:mm:ss`.
fn push_clock(seconds: u64, out: &mut Text) -> Result<(), NoMemory>
    requires { seconds < 86400 }
    ensures { OnOk result (out.new ≡ out.old ++ clock_text seconds) }
{
    push_two(seconds / 3600, out)?;
    out.push(":")?;
    push_two(seconds / 60 % 60, out)?;
    out.push(":")?;
    push_two(seconds % 60, out)?;
    Ok(())
}

/// A moment, in seconds from the start of 0001-01-01, as `YYYY-MM-DDThh:mm:ss`.
fn moment_text(alloc: Global, seconds: u64) -> Result<Text, NoMemory>
    requires { seconds < 315537897600 }
    ensures { IfOk result (λ t. t ≡ time_text seconds) }
{
    let mut out = day_text(alloc, seconds / DAY)?;
    out.push("T")?;
    push_clock(seconds % DAY, &mut out)?;
    Ok(out)
}

/// A start as it is written.
pub fn start_of(alloc: Global, start: i64) -> Result<Text, NoMemory>
    requires { IsStart start }
    ensures { IfOk result (λ t. t ≡ start_text start) }
{
    let seconds = start.unsigned_abs();
    if seconds % DAY == 0 {
        day_text(alloc, seconds / DAY)
    } else {
        moment_text(alloc, seconds)
    }
}

/// An instant or an end as it is written.
pub fn end_of(alloc: Global, end: i64) -> Result<Text, NoMemory>
    requires { IsEnd end }
    ensures { IfOk result (λ t. t ≡ end_text end) }
{
    let seconds = end.unsigned_abs();
    if seconds % DAY == 0 {
        day_text(alloc, seconds / DAY - 1)
    } else {
        moment_text(alloc, seconds)
    }
}
