// A contract month: its code, whether it is quarterly, its settlement day and its last trading day.
#![tactic(auto)]

ghost use Rattle.std.specs.Prelude.{◌≡◌, true, ◌+◌, ◌-◌, ◌≤◌, ◌<◌};
ghost use Rattle.days.specs.Days.{rising, is_working};
ghost use Rattle.months.specs.Months.{month_of, code_of, is_quarterly, first_day, third_wednesday, settlement_day, last_trading_day};

use days::{next_working, working_before};

// A month, counted from January 2000 on.
#[derive(Clone, Copy)]
pub struct Month {
    pub number: u32,
}

impl Month {
    // The first and the last month that have their days in the calendar: January 2020 and December 2029.
    pub const FIRST: u32 = 240;

    pub const LAST: u32 = 359;

    // The first day of each month from January 2020 on.
    const FIRST_DAYS: [u64; 120] = [
        0, 31, 60, 91, 121, 152, 182, 213, 244, 274, 305, 335, 366, 397, 425, 456, 486, 517, 547,
        578, 609, 639, 670, 700, 731, 762, 790, 821, 851, 882, 912, 943, 974, 1004, 1035, 1065,
        1096, 1127, 1155, 1186, 1216, 1247, 1277, 1308, 1339, 1369, 1400, 1430, 1461, 1492, 1521,
        1552, 1582, 1613, 1643, 1674, 1705, 1735, 1766, 1796, 1827, 1858, 1886, 1917, 1947, 1978,
        2008, 2039, 2070, 2100, 2131, 2161, 2192, 2223, 2251, 2282, 2312, 2343, 2373, 2404, 2435,
        2465, 2496, 2526, 2557, 2588, 2616, 2647, 2677, 2708, 2738, 2769, 2800, 2830, 2861, 2891,
        2922, 2953, 2982, 3013, 3043, 3074, 3104, 3135, 3166, 3196, 3227, 3257, 3288, 3319, 3347,
        3378, 3408, 3439, 3469, 3500, 3531, 3561, 3592, 3622,
    ];

    // The month of a code YYMM, if it is one.
    pub fn from_code(code: u64) -> Option<Month>
        ensures { result ≡ month_of code }
    {
        if 9999 < code {
            return None;
        }
        let of_year = code % 100;
        if of_year < 1 {
            return None;
        }
        if 12 < of_year {
            return None;
        }
        let number = (code / 100 * 12 + (of_year - 1)) as u32;
        Some(Month { number })
    }

    // The code YYMM of a month.
    pub fn code(self) -> u64
        ensures { result ≡ code_of self.number }
    {
        let number = self.number as u64;
        number / 12 * 100 + (number % 12 + 1)
    }

    // March, June, September and December are quarterly.
    pub fn is_quarterly(self) -> bool
        ensures { result ≡ is_quarterly self.number }
    {
        self.number % 3 == 2
    }

    fn first_day(self) -> u64
        requires { (240 ≤ self.number) × (self.number < 360) }
        ensures { result ≡ first_day (self.number - 240) }
    {
        Self::FIRST_DAYS[(self.number - Self::FIRST) as usize]
    }

    fn third_wednesday(self) -> u64
        requires { (240 ≤ self.number) × (self.number < 360) }
        ensures { result ≡ third_wednesday self.number }
    {
        (self.first_day() + 6) / 7 * 7 + 14
    }

    // The third Wednesday, or the next working day if that is off; none if the calendar does not have it.
    pub fn settlement_day(self, exceptions: &[u64]) -> Option<u64>
        requires { rising exceptions.now ≡ true }
        ensures { result ≡ settlement_day (is_working exceptions.now) self.number }
    {
        if self.number < Self::FIRST {
            return None;
        }
        if Self::LAST < self.number {
            return None;
        }
        next_working(exceptions, self.third_wednesday())
    }

    // The working day before the settlement day, if the calendar has both.
    pub fn last_trading_day(self, exceptions: &[u64]) -> Option<u64>
        requires { rising exceptions.now ≡ true }
        ensures { result ≡ last_trading_day (is_working exceptions.now) self.number }
    {
        working_before(exceptions, self.settlement_day(exceptions)?)
    }
}
