//! The times of instants: a day and a time in UTC as 17 digits `YYYYMMDDhhmmssSSS`.

ghost use Rattle.std.specs.Prelude.{◌≡◌, ◌<◌, ◌≤ℤ◌, ◌^◌, ◌/◌, ◌%◌, ℕ, ℤ, List, pos, IfOk, IfSome, IfNone, MatchOption, OnErr, ◌⊎◌, Ok, Err};
ghost use Rattle.std.specs.Str.Parse.{digits_value};
ghost use Rattle.jiff_core.specs.Calendar.{IsCivilDate, days_from_civil};
ghost use Rattle.hudi_names.specs.Time.{IsSomeTimeAt, IsTime, IsTimeNumber, IsDigits, IsTimeOfDay, IsPast9999};

use jiff_core::civil::Date;
use lake_basics::Text;
use std::alloc::{AllocError, Global};

const DAY_MS: i64 = 86_400_000;

/// The milliseconds since the start of 1970 in UTC, if the bytes are 17 digits that spell a real day
/// and time.
pub fn read_time(digits: &[u8]) -> Option<i64>
    ensures { MatchOption result ((ms : ℤ) → ¬ IsTime digits.now ms)
        (λ ms. IsTime digits.now ms) }
{
    match str::from_utf8(digits) {
        Ok(text) => time_of_text(text),
        Err(_) => None,
    }
}

fn time_of_text(text: &str) -> Option<i64>
    ensures { MatchOption result ((ms : ℤ) → ¬ IsTime text.now ms) (λ ms. IsTime text.now ms) }
{
    let number = read_digits(text)?;
    let date = number / 1_000_000_000;
    let days = day_number(
        (date / 10_000) as u16,
        (date / 100 % 100) as u16,
        (date % 100) as u16,
    )?;
    let Some(in_day) = read_time_of_day((number % 1_000_000_000) as u32) else {
        return None;
    };
    Some(i64::from(days) * DAY_MS + i64::from(in_day))
}

// The number that 17 digits write.
fn read_digits(text: &str) -> Option<u64>
    ensures digits { MatchOption result (¬ IsDigits text.now)
        (λ n. IsDigits text.now × (n ≡ digits_value 10 text.now)) }
    ensures small { IfSome result (λ n. n < 10 ^ 17) }
{
    if text.len() != 17 {
        return None;
    }
    if text.as_bytes()[0] == b'+' {
        return None;
    }
    text.parse::<u64>().ok()
}

// The days after 1970-01-01, if the calendar has the day.
fn day_number(year: u16, month: u16, day: u16) -> Option<i32>
    requires year_small { year < 10000 }
    requires month_small { month < 100 }
    requires day_small { day < 100 }
    ensures { MatchOption result (¬ IsCivilDate (pos year) month day)
        (λ z. IsCivilDate (pos year) month day × (z ≡ days_from_civil (pos year) month day)) }
{
    match Date::new(year as i16, month as i8, day as i8) {
        Ok(date) => Some(date.to_unix_epoch_day()),
        Err(_) => None,
    }
}

// The milliseconds of the day that `hhmmssSSS` is.
fn read_time_of_day(time: u32) -> Option<u32>
    requires { time < 1000000000 }
    ensures { MatchOption result ((ms : ℕ) → ¬ IsTimeOfDay time ms) (λ ms. IsTimeOfDay time ms) }
{
    let hour = time / 10_000_000;
    let minute = time / 100_000 % 100;
    let second = time / 1000 % 100;
    if hour >= 24 || minute >= 60 || second >= 60 {
        return None;
    }
    Some(((hour * 60 + minute) * 60 + second) * 1000 + time % 1000)
}

/// The 17 digits of a time in UTC, given in milliseconds since the start of 1970. A time outside
/// the years 0 to 9999 has none.
pub fn time_text(alloc: Global, ms: i64) -> Result<Option<Text>, AllocError>
    ensures text { IfOk result (λ o. MatchOption o ((text : List ℕ) → ¬ IsTime text ms)
        (λ text. IsTime text ms)) }
    // What is as late as some time that has digits, and has none, is past them all.
    ensures past { IfOk result (λ o. IfNone o ((text : List ℕ) (earlier : ℤ)
        → IsTime text earlier → earlier ≤ℤ ms → IsPast9999 ms)) }
    // Memory is asked for only where there are digits.
    ensures memory { OnErr result (IsSomeTimeAt ms) }
{
    match time_number(ms) {
        Some(number) => Ok(Some(digits_text(alloc, number)?)),
        None => Ok(None),
    }
}

// The 17 digits of a number.
fn digits_text(alloc: Global, number: u64) -> Result<Text, AllocError>
    requires { number < 10 ^ 17 }
    ensures { IfOk result (λ t. IsDigits t × (digits_value 10 t ≡ number)) }
{
    Ok(Text::from_string(format!(in alloc; "{number:017}")?))
}

// The number `YYYYMMDDhhmmssSSS` of a time in the years 0 to 9999.
fn time_number(ms: i64) -> Option<u64>
    ensures number { MatchOption result ((n : ℕ) → n < 10 ^ 17 → ¬ IsTimeNumber n ms)
        (λ n. (n < 10 ^ 17) × IsTimeNumber n ms) }
    // What is as late as some time that has a number, and has none, is past them all.
    ensures past { IfNone result ((n : ℕ) (earlier : ℤ)
        → IsTimeNumber n earlier → earlier ≤ℤ ms → IsPast9999 ms) }
{
    let date = match Date::from_unix_epoch_day(ms.div_euclid(DAY_MS)) {
        Ok(date) => date,
        Err(_) => return None,
    };
    if date.year < 0 {
        return None;
    }
    let day = date_digits(date.year as u16, date.month, date.day);
    let time = time_digits(ms.rem_euclid(DAY_MS) as u32);
    Some(u64::from(day) * 1_000_000_000 + u64::from(time))
}

fn date_digits(year: u16, month: u8, day: u8) -> u32
    requires year_small { year < 10000 }
    requires month_small { month < 100 }
    requires day_small { day < 100 }
    ensures small { result < 100000000 }
    ensures year { result / 10000 ≡ year }
    ensures month { result / 100 % 100 ≡ month }
    ensures day { result % 100 ≡ day }
{
    (u32::from(year) * 100 + u32::from(month)) * 100 + u32::from(day)
}

fn time_digits(ms: u32) -> u32
    requires { ms < 86400000 }
    ensures small { result < 1000000000 }
    ensures time { IsTimeOfDay result ms }
{
    let seconds = ms / 1000;
    let minutes = seconds / 60;
    ((minutes / 60 * 100 + minutes % 60) * 100 + seconds % 60) * 1000 + ms % 1000
}
