//! Which days are real, and how a value is written.
ghost use Rattle.std.specs.Prelude.{◌≡◌, ◌↔◌, ◌++◌, pos, string_bytes, IsTrue, IfOk, OnOk};
ghost use Rattle.jiff.specs.Words.{IsDate};
ghost use Rattle.tr4_dates.specs.Transformation.{IsReal, two, four, written as written_of};

use crate::part::Fields;
use ix_base::{NoMemory, Text};
use jiff::civil::Date;
use std::alloc::Global;

/// Whether the Gregorian calendar has the day.
fn is_day(year: u16, month: u16, day: u16) -> bool
    ensures { IsTrue result ↔ IsDate (pos year) (pos month) (pos day) }
{
    if 9999 < year || 12 < month || 31 < day {
        return false;
    }
    Date::new(year as i16, month as i8, day as i8).is_ok()
}

/// Whether the fields are a day of the calendar, or of a leap year where there is no year.
pub fn is_real(said: Fields) -> bool
    ensures { IsTrue result ↔ IsReal said.year said.month said.day }
{
    match (said.year, said.month, said.day) {
        (Some(year), Some(month), Some(day)) => is_day(year, month, day),
        (None, Some(month), Some(day)) => is_day(2000, month, day),
        (Some(_), Some(_), None) => true,
        _ => false,
    }
}

/// Appends the last two digits.
fn push_two(text: &mut String, number: u16) -> Result<(), NoMemory>
    ensures { OnOk result (string_bytes text.new ≡ string_bytes text.old ++ two number) }
{
    text.push((b'0' + (number / 10 % 10) as u8) as char)?;
    text.push((b'0' + (number % 10) as u8) as char)?;
    Ok(())
}

/// Appends the last four digits.
fn push_four(text: &mut String, number: u16) -> Result<(), NoMemory>
    ensures { OnOk result (string_bytes text.new ≡ string_bytes text.old ++ four number) }
{
    text.push((b'0' + (number / 1000 % 10) as u8) as char)?;
    text.push((b'0' + (number / 100 % 10) as u8) as char)?;
    push_two(text, number)
}

/// The value that the fields are written as.
pub fn written(alloc: Global, said: Fields) -> Result<Text, NoMemory>
    ensures { IfOk result (λ v. v ≡ written_of said.year said.month said.day) }
{
    let mut text = String::new(alloc);
    match (said.year, said.month, said.day) {
        (Some(year), Some(month), Some(day)) => {
            push_four(&mut text, year)?;
            text.push_str("-")?;
            push_two(&mut text, month)?;
            text.push_str("-")?;
            push_two(&mut text, day)?;
        }
        (None, Some(month), Some(day)) => {
            text.push_str("--")?;
            push_two(&mut text, month)?;
            text.push_str("-")?;
            push_two(&mut text, day)?;
        }
        (Some(year), Some(month), None) => {
            push_four(&mut text, year)?;
            text.push_str("-")?;
            push_two(&mut text, month)?;
        }
        _ => {}
    }
    Text::of(alloc, text.as_str())
}
