// What is listed on a day: the four earliest quarterly months and the two earliest others that settle after it.
ghost use Rattle.std.specs.Prelude.{◌≡◌, true, ◌+◌, ◌≤◌, ◌<◌};
ghost use Rattle.days.specs.Days.{rising, is_working};
ghost use Rattle.calendar.specs.Listing.{is_after, listing, known_codes};
ghost use Rattle.calendar.specs.Choosing.{none_chosen, has_place, placed, considered, answered};

use months::Month;

// The months chosen so far, in rising order: how many of each kind, whether each has its settlement day in the
// calendar, and their codes.
#[derive(Clone, Copy)]
struct Chosen {
    quarterly: usize,
    others: usize,
    known: bool,
    codes: [u64; 6],
}

fn is_after(day: Option<u64>, t: u64) -> bool
    ensures { result ≡ is_after t day }
{
    day.is_none_or(|d| t < d)
}

impl Chosen {
    fn none() -> Chosen
        ensures { result ≡ none_chosen }
    {
        Chosen {
            quarterly: 0,
            others: 0,
            known: true,
            codes: [0; 6],
        }
    }

    // Whether one more month of a kind is listed: four quarterly ones are, and two others.
    fn has_place(self, quarterly: bool) -> bool
        ensures { result ≡ has_place self quarterly }
    {
        if quarterly {
            self.quarterly < 4
        } else {
            self.others < 2
        }
    }

    // One more month, at the next free place.
    fn placed(self, quarterly: bool, code: u64, known: bool) -> Chosen
        requires { self.quarterly + self.others < 6 }
        ensures { result ≡ placed self quarterly code known }
    {
        let mut codes = self.codes;
        codes[self.quarterly + self.others] = code;
        let known = self.known && known;
        if quarterly {
            Chosen {
                quarterly: self.quarterly + 1,
                known,
                codes,
                ..self
            }
        } else {
            Chosen {
                others: self.others + 1,
                known,
                codes,
                ..self
            }
        }
    }

    // A month is listed if it settles after t and its kind still has a place.
    fn considered(self, month: Month, day: Option<u64>, t: u64) -> Chosen
        requires { (self.quarterly ≤ 4) × (self.others ≤ 2) }
        ensures { result ≡ considered self month.number day t }
    {
        let quarterly = month.is_quarterly();
        if is_after(day, t) && self.has_place(quarterly) {
            self.placed(quarterly, month.code(), day.is_some())
        } else {
            self
        }
    }

    // The answer, once all six are chosen.
    fn answered(self) -> Option<[u64; 6]>
        ensures { result ≡ known_codes (answered self) }
    {
        if self.known { Some(self.codes) } else { None }
    }
}

// The six codes that are listed on day t, in rising order; none if a listed month's settlement day is not in the calendar. Months are taken in rising order until six are chosen; if the calendar's last month is
// reached first, a month past its end is listed.
pub fn listed_on(exceptions: &[u64], t: u64) -> Option<[u64; 6]>
    requires { rising exceptions.now ≡ true }
    ensures { result ≡ known_codes (listing (is_working exceptions.now) t) }
{
    let mut chosen = Chosen::none();
    for number in Month::FIRST..=Month::LAST {
        let month = Month { number };
        chosen = chosen.considered(month, month.settlement_day(exceptions), t);
        if chosen.quarterly + chosen.others == 6 {
            return chosen.answered();
        }
    }
    None
}
