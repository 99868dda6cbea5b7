//! Days of the calendar as text.
ghost use Rattle.std.specs.Prelude.{◌≡◌, ◌^◌, ◌<◌, ◌≤◌, ℤ, List, pos, length, ⊤, MatchOption, Some};
ghost use Rattle.std.specs.Str.{IsAscii};
ghost use Rattle.std.specs.Str.Parse.{IsNumeral, digits_value};
ghost use Rattle.jiff_core.specs.Calendar.{IsCivilDate, days_from_civil};
ghost use Rattle.partition_map.specs.DeltaText.{HasFourDigitYear, WritesDay, date_text};
ghost use Rattle.partition_map.specs.Stands.{IsDateText};

use jiff_core::civil::Date;

/// The days after 1970-01-01 of a text `YYYY-MM-DD`.
pub(crate) fn read_date(text: &[u8]) -> Option<i32>
    ensures { MatchOption result ((z : ℤ) → ¬ IsDateText text.now z) (λ z. IsDateText text.now z) }
{
    if text.len() != 10 || text[4] != b'-' || text[7] != b'-' {
        return None;
    }
    let year = read_digits(&text[..4])?;
    let month = read_digits(&text[5..7])?;
    let day = read_digits(&text[8..])?;
    day_number(year, month, day)
}

// The days after 1970-01-01, if the calendar has the day.
fn day_number(year: u16, month: u16, day: u16) -> Option<i32>
    requires year_small { year < 10000 }
    requires month_small { month < 100 }
    requires day_small { day < 100 }
    ensures { MatchOption result (¬ IsCivilDate (pos year) month day)
        (λ z. IsCivilDate (pos year) month day × (z ≡ days_from_civil (pos year) month day)) }
{
    match Date::new(year as i16, month as i8, day as i8) {
        Ok(date) => Some(date.to_unix_epoch_day()),
        Err(_) => None,
    }
}

// The number that up to four digits write.
fn read_digits(digits: &[u8]) -> Option<u16>
    requires { length digits.now ≤ 4 }
    ensures numeral { MatchOption result (¬ IsNumeral 10 digits.now)
        (λ n. IsNumeral 10 digits.now × (n ≡ digits_value 10 digits.now)) }
    ensures small { MatchOption result ⊤ (λ n. n < 10 ^ length digits.now) }
{
    if digits.is_empty() {
        return None;
    }
    let mut number = 0u16;
    for digit in digits {
        if !digit.is_ascii_digit() {
            return None;
        }
        number = number * 10 + u16::from(*digit - b'0');
    }
    Some(number)
}

/// The text `YYYY-MM-DD` of the day, if it lies in the years 0000 to 9999.
pub(crate) fn date_bytes(days: i32) -> Option<[u8; 10]>
    ensures text { MatchOption result (¬ HasFourDigitYear days)
        (λ text. HasFourDigitYear days × WritesDay days text) }
    ensures ascii { MatchOption result ⊤ IsAscii }
{
    let Ok(date) = Date::from_unix_epoch_day(i64::from(days)) else {
        return None;
    };
    if date.year < 0 {
        return None;
    }
    Some(civil_bytes(date.year as u16, date.month, date.day))
}

// The ten bytes of a date.
fn civil_bytes(year: u16, month: u8, day: u8) -> [u8; 10]
    requires year_small { year < 10000 }
    requires month_small { month < 100 }
    requires day_small { day < 100 }
    ensures text { result ≡ date_text year month day }
    ensures ascii { IsAscii result }
{
    [
        b'0' + (year / 10 / 10 / 10) as u8,
        b'0' + (year / 10 / 10 % 10) as u8,
        b'0' + (year / 10 % 10) as u8,
        b'0' + (year % 10) as u8,
        b'-',
        b'0' + month / 10,
        b'0' + month % 10,
        b'-',
        b'0' + day / 10,
        b'0' + day % 10,
    ]
}
