// The days of a contract by its code: none where the code is no month.
ghost use Rattle.std.specs.Prelude.{◌≡◌, true};
ghost use Rattle.days.specs.Days.{rising, is_working};
ghost use Rattle.months.specs.Months.{settlement_of, last_trading_of};

use months::Month;

// The settlement day of a code's month, if the calendar has it.
pub fn settlement_of(exceptions: &[u64], code: u64) -> Option<u64>
    requires { rising exceptions.now ≡ true }
    ensures { result ≡ settlement_of (is_working exceptions.now) code }
{
    Month::from_code(code)?.settlement_day(exceptions)
}

// The last trading day of a code's month, if the calendar has it.
pub fn last_trading_of(exceptions: &[u64], code: u64) -> Option<u64>
    requires { rising exceptions.now ≡ true }
    ensures { result ≡ last_trading_of (is_working exceptions.now) code }
{
    Month::from_code(code)?.last_trading_day(exceptions)
}
