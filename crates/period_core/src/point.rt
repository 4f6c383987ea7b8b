//! Points in time, as texts and as numbers.

ghost use Rattle.std.specs.Prelude.{Some, ◌+◌, ◌%◌, vec_len, ◌≡◌, ◌≢◌, ◌↔◌, ◌<◌, ◌≤◌, ◌≤ℤ◌, ℕ, pos, length, ◌∷◌, [], ◌++◌, ◌⊎◌, List, IsOk, IfOk, OnOk, OnErr, MatchOption, unsigned_abs};
ghost use Rattle.std.specs.Fmt.{WritesOnOk};
ghost use Rattle.std.specs.Result.{result_ok};
ghost use Rattle.std.specs.Str.{IsAscii};
ghost use Rattle.std.specs.Vec.{vec_capacity};
ghost use Rattle.jiff_core.specs.Date.{epoch_day};
ghost use Rattle.period_core.specs.Point.{HourMinuteSecond, IsDate, IsPointNumber, IsPointText, IsSomePointText, IsTime, IsTimeText, YearMonthDay, date_text, day_of, digits, midnight, point_of, point_text, second_number, second_of, seconds_per_day, time_of_second, time_text, year_month_day};

use crate::NoMemory;
use jiff::civil::Date;
use jiff_core::civil;
use std::alloc::Allocator;
use std::fmt;
use std::marker::Model;
use thiserror::Error;

const SECONDS_PER_DAY: i64 = 86_400;

// The numbers of 0001-01-01 and of 9999-12-31T23:59:59.
const FIRST_NUMBER: i64 = -62_135_596_800;

const LAST_NUMBER: i64 = 253_402_300_799;

/// A second of a date of the proleptic Gregorian calendar, in the years 0001 to 9999. Contracts see its number: the
/// seconds from 1970-01-01T00:00:00. Points are ordered by it.
#[derive(Clone, Copy, Debug, PartialEq, Eq, PartialOrd, Ord)]
pub struct Point {
    number: i64,
}

impl Model for Point {
    ghost use Rattle.std.specs.Prelude.{ℤ};
    ghost use Rattle.period_core.specs.Point.{IsPointNumber};

    ghost Value = { ℤ };

    ghost view = { λ p. p.number };

    ghost invariant = { λ p. IsPointNumber p.number };

    ghost inverse = { λ n. record { number = n } };
}

/// The text isn't a date of the years 0001 to 9999, with or without a time of day, or no such second has the number.
#[derive(Clone, Copy, Debug, PartialEq, Eq, Error)]
#[error("no point of the years 0001 to 9999")]
pub struct BadPoint;

impl Point {
    /// Parses the nineteen bytes `YYYY-MM-DDThh:mm:ss`, or the ten bytes `YYYY-MM-DD`, which mean midnight.
    ///
    /// # Errors
    ///
    /// `BadPoint` if and only if the bytes are not the text of a point.
    pub fn parse(text: &[u8]) -> Result<Point, BadPoint>
        ensures succeeds { IsOk result ↔ IsSomePointText text.now }
        ensures value { IfOk result (λ point. IsPointText text.now point) }
        ensures point { result_ok result ≡ point_of text.now }

        // The text is the one that `write` appends, or a midnight written with its time.
        ensures writes_back { IfOk result (λ point. (text.now ≡ point_text point)
            ⊎ (text.now ≡ point_text point ++ time_text midnight)) }
    {
        let Some((front, behind)) = text.split_at_checked(10) else {
            return Err(BadPoint);
        };
        let Some((year, month, day)) = date_parts(front) else {
            return Err(BadPoint);
        };
        let Some(date) = date_of(year, month, day) else {
            return Err(BadPoint);
        };
        let Some((hour, minute, second)) = time_of(behind) else {
            return Err(BadPoint);
        };
        Ok(Point {
            number: date.to_unix_epoch_day() as i64 * SECONDS_PER_DAY
                + second_number(hour, minute, second),
        })
    }

    /// Returns the point with that number.
    ///
    /// # Errors
    ///
    /// `BadPoint` if and only if no point has the number.
    pub fn from_number(number: i64) -> Result<Point, BadPoint>
        ensures succeeds { IsOk result ↔ IsPointNumber number }
        ensures value { IfOk result (λ point. point ≡ number) }
    {
        if (FIRST_NUMBER..=LAST_NUMBER).contains(&number) {
            Ok(Point { number })
        } else {
            Err(BadPoint)
        }
    }

    /// Returns the seconds from 1970-01-01T00:00:00, negative before it.
    pub fn number(self) -> i64
        ensures value { result ≡ self }
        ensures bound { IsPointNumber result }
    {
        self.number
    }

    /// Appends the ten bytes `YYYY-MM-DD` at midnight, otherwise the nineteen bytes `YYYY-MM-DDThh:mm:ss`.
    ///
    /// # Errors
    ///
    /// `NoMemory` if a growth of `out` is refused; `out` is then unchanged.
    pub fn write<A: Allocator>(&self, out: &mut Vec<u8, A>) -> Result<(), NoMemory>
        ensures ok { OnOk result (out.new.items ≡ out.old.items ++ point_text self.now) }
        ensures err { OnErr result (out.new.items ≡ out.old.items) }

        // No memory is requested if the capacity is enough.
        ensures room { vec_len out.old + length (point_text self.now) ≤ vec_capacity out.old
            → IsOk result }

        // The appended bytes are a text of the point, and parse as the point.
        ensures text { IsPointText (point_text self.now) self.now }
        ensures reads_back { point_of (point_text self.now) ≡ Some self.now }

        // Each other text of the point is longer.
        ensures shortest { (other : List ℕ) → IsPointText other self.now
            → (other ≡ point_text self.now)
            ⊎ (length (point_text self.now) < length other) }
    {
        let date = text_of(&self.date());
        let second = self.second();
        if second == 0 {
            out.extend_from_slice(&date)
        } else {
            out.extend_from_slice(&with_time(&date, second))
        }
    }

    // Returns the date of the second.
    fn date(&self) -> civil::Date
        ensures year { pos 1 ≤ℤ result.year }
        ensures number { epoch_day result ≡ day_of self.now }
    {
        match civil::Date::from_unix_epoch_day(self.number.div_euclid(SECONDS_PER_DAY)) {
            Ok(date) => date,
            Err(_) => unreachable!(),
        }
    }

    // Returns the second of the day.
    fn second(&self) -> u32
        ensures bound { result < seconds_per_day }
        ensures value { result ≡ second_of self.now }
    {
        self.number.rem_euclid(SECONDS_PER_DAY) as u32
    }
}

/// Writes the text that `write` appends.
impl fmt::Display for Point {
    ghost output = { λ p. Some (point_text p) };

    fn fmt<W: fmt::Write>(&self, f: &mut fmt::Formatter<W>) -> fmt::Result {
        let date = text_of(&self.date());
        let second = self.second();
        if second == 0 {
            write_ascii(f, &date)
        } else {
            write_ascii(f, &with_time(&date, second))
        }
    }
}

// Writes ASCII bytes.
fn write_ascii<W: fmt::Write>(f: &mut fmt::Formatter<W>, bytes: &[u8]) -> fmt::Result
    requires { IsAscii bytes.now }
    ensures { WritesOnOk W.write_str_gives f.old result bytes.now f.new }
{
    match str::from_utf8(bytes) {
        Ok(text) => f.write_str(text),
        Err(_) => unreachable!(),
    }
}

// Returns the number that two digits denote.
fn two_digits(tens: u8, ones: u8) -> Option<u8>
    ensures { MatchOption result ((n : ℕ) → tens ∷ ones ∷ [] ≢ digits 2 n)
        (λ n. (n < 100) × (tens ∷ ones ∷ [] ≡ digits 2 n)) }
{
    if tens.is_ascii_digit() && ones.is_ascii_digit() {
        Some((tens - b'0') * 10 + (ones - b'0'))
    } else {
        None
    }
}

// Returns the numbers that three pairs of digits denote, separated by a byte.
fn three_pairs(text: &[u8], between: u8) -> Option<(u8, u8, u8)>
    ensures { MatchOption result ((a b c : ℕ)
        → text.now ≢ digits 2 a ++ between ∷ digits 2 b ++ between ∷ digits 2 c)
        (λ p. (p.0 < 100) × (p.1 < 100) × (p.2 < 100)
        × (text.now ≡ digits 2 p.0 ++ between ∷ digits 2 p.1 ++ between ∷ digits 2 p.2)) }
{
    if text.len() != 8 || text[2] != between || text[5] != between {
        return None;
    }
    let first = two_digits(text[0], text[1])?;
    let second = two_digits(text[3], text[4])?;
    let third = two_digits(text[6], text[7])?;
    Some((first, second, third))
}

// Returns the year, month and day that a text denotes; the calendar may not have this day.
fn date_parts(text: &[u8]) -> Option<(u16, u8, u8)>
    ensures { MatchOption result ((d : YearMonthDay) → text.now ≢ date_text d)
        (λ p. (p.0 ≤ 9999) × (p.1 < 100) × (p.2 < 100)
        × (text.now ≡ date_text (record { year = p.0; month = p.1; day = p.2 }))) }
{
    let (century, pairs) = text.split_at_checked(2)?;
    let century = two_digits(century[0], century[1])?;
    let (year, month, day) = three_pairs(pairs, b'-')?;
    Some((century as u16 * 100 + year as u16, month, day))
}

// Returns the date, if the calendar has it.
fn date_of(year: u16, month: u8, day: u8) -> Option<civil::Date>
    requires { (year ≤ 9999) × (month < 100) × (day < 100) }
    ensures { MatchOption result (¬ IsDate (record { year = year; month = month; day = day }))
        (λ date. (pos 1 ≤ℤ date.year)
        × (year_month_day date ≡ record { year = year; month = month; day = day })) }
{
    if year == 0 {
        return None;
    }
    let date = Date::new(year as i16, month as i8, day as i8).ok()?;
    Some(date.to_plain())
}

// Returns the time that the bytes after a date denote; midnight if `text` is empty.
fn time_of(text: &[u8]) -> Option<(u8, u8, u8)>
    ensures { MatchOption result ((t : HourMinuteSecond) → IsTime t → IsTimeText text.now t → ⊥)
        (λ p. IsTime (record { hour = p.0; minute = p.1; second = p.2 })
        × IsTimeText text.now (record { hour = p.0; minute = p.1; second = p.2 })) }
{
    let Some((letter, pairs)) = text.split_first() else {
        return Some((0, 0, 0));
    };
    if *letter != b'T' {
        return None;
    }
    let (hour, minute, second) = three_pairs(pairs, b':')?;
    if hour < 24 && minute < 60 && second < 60 {
        Some((hour, minute, second))
    } else {
        None
    }
}

// Returns the seconds from midnight.
fn second_number(hour: u8, minute: u8, second: u8) -> i64
    ensures { result ≡ pos
        (second_number (record { hour = hour; minute = minute; second = second })) }
{
    (hour as i64 * 60 + minute as i64) * 60 + second as i64
}

// Returns the text of a date.
fn text_of(date: &civil::Date) -> [u8; 10]
    requires { pos 1 ≤ℤ date.now.year }
    ensures { result ≡ date_text (year_month_day date.now) }
{
    let year = date.year as u16;
    [
        digit(year / 1000),
        digit(year / 100),
        digit(year / 10),
        digit(year),
        b'-',
        digit((date.month / 10) as u16),
        digit(date.month as u16),
        b'-',
        digit((date.day / 10) as u16),
        digit(date.day as u16),
    ]
}

// Returns the text of a date, followed by the text of the time.
fn with_time(date: &[u8; 10], second: u32) -> [u8; 19]
    requires { second < seconds_per_day }
    ensures { result ≡ date.now ++ time_text (time_of_second second) }
{
    let hour = (second / 3600) as u16;
    let minute = (second / 60 % 60) as u16;
    let second = (second % 60) as u16;
    [
        date[0],
        date[1],
        date[2],
        date[3],
        date[4],
        date[5],
        date[6],
        date[7],
        date[8],
        date[9],
        b'T',
        digit(hour / 10),
        digit(hour),
        b':',
        digit(minute / 10),
        digit(minute),
        b':',
        digit(second / 10),
        digit(second),
    ]
}

// Returns the last digit of a number, in ASCII.
fn digit(number: u16) -> u8
    ensures { result ≡ 48 + number % 10 }
{
    b'0' + (number % 10) as u8
}
