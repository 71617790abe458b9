// Why a call is refused (document 01, 'Refusal numbers').
#![tactic(auto)]

ghost use Rattle.std.specs.Prelude.{◌≡◌, ◌<◌};
ghost use Rattle.refusals.specs.Refusals.{number_of};

// Each stands for the number that it is given here. An open that is refused because a listed month has no settlement day in the
// calendar is NoSettlementDay.
#[derive(Clone, Copy, PartialEq, Eq, Debug)]
pub enum Refusal {
    NotNow = 3,
    UnknownAccount = 5,
    AlreadyEnrolled = 6,
    AccountsFull = 7,
    NotListed = 8,
    TooEarly = 9,
    OutOfHours = 10,
    BuyerIsSeller = 11,
    InDefault = 12,
    NetTooLarge = 13,
    OverLimit = 14,
    TooMuch = 15,
    NoRoom = 16,
    PaysInTooMuch = 17,
    CalendarRefused = 18,
    DayOff = 19,
    NotNextDay = 20,
    NoSettlementDay = 21,
}

impl Refusal {
    // A call that is not refused has the number 0.
    pub fn number(self) -> u64
        ensures number { result ≡ number_of self }
        ensures some { 0 < result }
    {
        self as u64
    }
}
