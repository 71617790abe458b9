// What an account has: cash, margin, what it is due, what is required of it, and whether it is in default. Bills, settlement,
// payments and releases are over this part of an account alone (document 01, 'Close', 'Settle' and 'Release').
#![tactic(auto)]

ghost use Rattle.std.specs.Prelude.{◌≡◌};
ghost use Rattle.whole.specs.Within.{Within};
ghost use Rattle.whole.specs.Amounts.{Amount};
ghost use Rattle.funds.specs.Funds.{new_funds, billed, paid_up, in_default, settled, paid_in, paid_out, released, refusal_for};
ghost use Rattle.funds.specs.Bounds.{Sound, days_most, most_booked, requirement_most, free_most};

use refusals::Refusal;

// The money of an account, in fen, and its default flag. Requirement and free are the last close's.
#[derive(Clone, Copy)]
pub struct Funds {
    pub cash: i64,
    pub margin: i64,
    pub due: i64,
    pub requirement: i64,
    pub free: i64,
    pub flag: bool,
}

// What settling an account makes of its money, what was called from its cash, and what the house paid into its margin.
#[derive(Clone, Copy)]
pub struct Settlement {
    pub funds: Funds,
    pub called: i64,
    pub paid: i64,
}

// Why a payment or a release is not made.
#[derive(Clone, Copy, PartialEq, Eq, Debug)]
pub enum PaymentError {
    InDefault,
    TooMuch,
    Full,
}

impl From<PaymentError> for Refusal {
    ghost from_gives = { λ e r. r ≡ refusal_for e };

    fn from(e: PaymentError) -> Refusal {
        match e {
            PaymentError::InDefault => Refusal::InDefault,
            PaymentError::TooMuch => Refusal::TooMuch,
            PaymentError::Full => Refusal::PaysInTooMuch,
        }
    }
}

// The most that cash and margin may come to by a payment.
const CASH_MOST: i64 = 100000000000000000;

// The money of a new account.
pub fn new_funds() -> Funds
    ensures { result ≡ new_funds }
{
    Funds {
        cash: 0,
        margin: 0,
        due: 0,
        requirement: 0,
        free: 0,
        flag: false,
    }
}

// A close's bill: variation is added to what is due, and free is what margin and due leave above the requirement.
pub fn billed(f: Funds, variation: i64, requirement: i64) -> Funds
    requires { Sound days_most f × (Within most_booked variation × Amount requirement_most requirement) }
    ensures { result ≡ billed f variation requirement }
{
    let due = f.due + variation;
    let free = f.margin + due - requirement;
    let mut x = f;
    x.due = due;
    x.requirement = requirement;
    x.free = free;
    x
}

// Due moves between house and margin, after what was called from cash; the flag is cleared.
fn paid_up(f: Funds, called: i64) -> Settlement
    requires { Sound days_most f × Within (free_most days_most) called }
    ensures { result ≡ paid_up f called }
{
    let due = f.due;
    let mut x = f;
    x.cash = f.cash - called;
    x.margin = f.margin + called + due;
    x.due = 0;
    x.flag = false;
    Settlement {
        funds: x,
        called,
        paid: due,
    }
}

// Nothing moves, and the flag is set.
fn in_default(f: Funds) -> Settlement
    ensures { result ≡ in_default f }
{
    let mut x = f;
    x.flag = true;
    Settlement {
        funds: x,
        called: 0,
        paid: 0,
    }
}

// Settling one account.
pub fn settled(f: Funds) -> Settlement
    requires { Sound days_most f }
    ensures { result ≡ settled f }
{
    let free = f.free;
    if 0 <= free {
        return paid_up(f, 0);
    }
    let need = 0 - free;
    if need <= f.cash {
        return paid_up(f, need);
    }
    in_default(f)
}

// Money in.
pub fn pay_in(f: Funds, amount: i64) -> Result<Funds, PaymentError>
    requires { Sound days_most f × Amount 100000000000000 amount }
    ensures { result ≡ paid_in f amount }
{
    let cash = f.cash + amount;
    if CASH_MOST < cash + f.margin {
        return Err(PaymentError::Full);
    }
    let mut x = f;
    x.cash = cash;
    Ok(x)
}

// Money out, at most the cash.
pub fn pay_out(f: Funds, amount: i64) -> Result<Funds, PaymentError>
    requires { Sound days_most f × Amount 100000000000000 amount }
    ensures { result ≡ paid_out f amount }
{
    if f.flag {
        return Err(PaymentError::InDefault);
    }
    let cash = f.cash;
    if cash < amount {
        return Err(PaymentError::TooMuch);
    }
    let mut x = f;
    x.cash = cash - amount;
    Ok(x)
}

// Margin back to cash, at most what is above the requirement.
pub fn release(f: Funds, amount: i64) -> Result<Funds, PaymentError>
    requires { Sound days_most f × Amount 100000000000000 amount }
    ensures { result ≡ released f amount }
{
    if f.flag {
        return Err(PaymentError::InDefault);
    }
    let margin = f.margin;
    if margin - f.requirement < amount {
        return Err(PaymentError::TooMuch);
    }
    let mut x = f;
    x.cash = f.cash + amount;
    x.margin = margin - amount;
    Ok(x)
}
