// The settlement rate of one contract on one day, the rule that gave it, and how many trades or counted quotes it used
// (document 01, 'Settlement rate').
#![tactic(auto)]

ghost use Rattle.std.specs.Prelude.{◌≡◌, ◌<◌};
ghost use Rattle.tallies.specs.Bounds.{Fair, Sound};
ghost use Rattle.rates.specs.Rules.{number_of, halfway, nearest};
ghost use Rattle.rates.specs.Settling.{rule_from, used_from, rate_from, settled_from, Divides};

use tallies::{Mean, Tally, mean_of};
use whole::rounded;

// The rules, in the order of their numbers in document 01.
#[derive(Clone, Copy)]
pub enum Rule {
    LastHour,
    LastFive,
    Quotes,
    Previous,
    Final,
}

// The rate, the rule that gave it, and how many trades or counted quotes it used.
#[derive(Clone, Copy)]
pub struct Settled {
    pub rate: i64,
    pub rule: Rule,
    pub used: u64,
}

// The rule's number in document 01.
pub fn number_of(rule: Rule) -> u64
    ensures { result ≡ number_of rule }
{
    match rule {
        Rule::LastHour => 1,
        Rule::LastFive => 2,
        Rule::Quotes => 3,
        Rule::Previous => 4,
        Rule::Final => 5,
    }
}

// Half of the sum of two means, as one quotient: nothing is rounded before the end.
fn half_of(a: Mean, b: Mean) -> Mean
    requires { Fair 10000 a × Fair 10000 b }
    ensures { result ≡ halfway a b }
{
    let of_a = a.weight as i64;
    let of_b = b.weight as i64;
    Mean {
        sum: a.sum * of_b + b.sum * of_a,
        weight: 2 * (a.weight * b.weight),
    }
}

// The one rounding at the end.
fn nearest_to(m: Mean) -> i64
    requires { 0 < m.weight }
    ensures { result ≡ nearest m }
{
    let sum = m.sum;
    rounded(sum, m.weight)
}

// The rule that gives the rate.
fn rule_of(t: Tally, ending: bool) -> Rule
    ensures { result ≡ rule_from t ending }
{
    if ending {
        return Rule::Final;
    }
    if 5 <= t.late {
        return Rule::LastHour;
    }
    if 5 <= t.trades {
        return Rule::LastFive;
    }
    let quotes = t.quotes;
    let bids = quotes[0];
    if bids.weight < 1 {
        return Rule::Previous;
    }
    let offers = quotes[1];
    if offers.weight < 1 {
        return Rule::Previous;
    }
    Rule::Quotes
}

// How many trades or counted quotes the rule uses.
fn used_by(rule: Rule, t: Tally) -> u64
    requires { Sound t }
    ensures { result ≡ used_from t rule }
{
    match rule {
        Rule::LastHour => t.late,
        Rule::LastFive => 5,
        Rule::Quotes => {
            let quotes = t.quotes;
            let bids = quotes[0];
            let offers = quotes[1];
            bids.weight + offers.weight
        }
        Rule::Previous => 0,
        Rule::Final => 0,
    }
}

// The rate by the rule that applies.
fn rate_by(rule: Rule, t: Tally, previous: i64, final_rate: i64) -> i64
    requires { Sound t × Divides rule t }
    ensures { result ≡ rate_from t rule previous final_rate }
{
    match rule {
        Rule::LastHour => {
            let hour = t.hour;
            nearest_to(hour)
        }
        Rule::LastFive => {
            let latest = t.latest;
            let mean = mean_of(latest);
            nearest_to(mean)
        }
        Rule::Quotes => {
            let quotes = t.quotes;
            let bids = quotes[0];
            let offers = quotes[1];
            let half = half_of(bids, offers);
            nearest_to(half)
        }
        Rule::Previous => previous,
        Rule::Final => final_rate,
    }
}

// The settlement rate of the day so far, on the last trading day or on another, with the rule and its count.
pub fn settle(t: Tally, previous: i64, ending: bool, final_rate: i64) -> Settled
    requires { Sound t }
    ensures { result ≡ settled_from t previous ending final_rate }
{
    let rule = rule_of(t, ending);
    let used = used_by(rule, t);
    let rate = rate_by(rule, t, previous, final_rate);
    Settled { rate, rule, used }
}
