// The date of a day of the calendar.
ghost use Rattle.std.specs.Prelude.{◌≤◌};

// A date.
#[derive(Clone, Copy)]
pub(crate) struct Date {
    pub year: u64,
    pub month: u64,
    pub day: u64,
}

// The days of the months before December, in a year counted from 2020.
fn month_lengths(year: u64) -> [u64; 11] {
    let february = if year % 4 == 0 { 29 } else { 28 };
    [31, february, 31, 30, 31, 30, 31, 31, 30, 31, 30]
}

// The year of a day, counted from 2020: every fourth one is a leap year.
fn year_of(day: u64) -> u64
    ensures { result ≤ 51000000000000000 }
{
    let rest = day % 1461;
    if rest < 366 {
        return day / 1461 * 4;
    }
    day / 1461 * 4 + (rest - 1) / 365
}

// The place of a day in its year, from 0 on.
fn day_in_year(day: u64) -> u64
    ensures { result ≤ 365 }
{
    let rest = day % 1461;
    if rest < 366 {
        return rest;
    }
    (rest - 1) % 365
}

pub(crate) fn date_of(day: u64) -> Date {
    let counted = year_of(day);
    let year = 2020 + counted;
    let mut left = day_in_year(day);
    for (i, length) in month_lengths(counted).iter().enumerate() {
        if left < *length {
            return Date {
                year,
                month: i as u64 + 1,
                day: left + 1,
            };
        }
        left -= *length;
    }
    Date {
        year,
        month: 12,
        day: left + 1,
    }
}
