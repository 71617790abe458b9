// After a close: what the account's trades of the day and the positions carried over earn at the settlement rates, contract by contract.
ghost use Rattle.std.specs.Prelude.{◌≡◌, true};
ghost use Rattle.lists.specs.Has.{has};
ghost use Rattle.whole.specs.Within.{Within};
ghost use Rattle.standing.specs.Standing.{view};
ghost use Rattle.standing.specs.Made.{Sound};
ghost use Rattle.desk.specs.Lines.{rate_in, Table, Lined, Closing, ExplainedAll};

use memory::{COUNTS, MONEY};
use particulars::Stood;
use rates::{Rule, Settled};
use reports::rate_of;
use trail::{price, worth};

// What is said of one contract: how it was settled, what the position carried over earned, and the sum of all lines.
#[derive(Clone, Copy)]
pub struct Line {
    pub settled: Settled,
    pub carried: i64,
    pub sum: i64,
}

// The line of a contract that has not been settled.
fn no_line() -> Line {
    let settled = Settled {
        rate: 0,
        rule: Rule::Previous,
        used: 0,
    };
    Line {
        settled,
        carried: 0,
        sum: 0,
    }
}

// The line of one contract; the amounts of its trades are set.
fn line_of(
    counts: &[u64; COUNTS],
    money: &[i64; MONEY],
    labels: &[u64],
    amounts: &mut [i64],
    used: usize,
    stood: Stood,
) -> Line
    requires sound { Sound counts.now money.now × (has stood.code (view counts.now money.now).results.codes ≡ true) }
    requires within { Within 20000 stood.net × (Within 100000 stood.previous × Within 100000 (rate_in (view counts.now money.now) stood.code)) }
    requires table { Table labels.now amounts.old used }
    ensures { Lined (view counts.now money.now) labels.now amounts.old used stood result amounts.new }
{
    let Some(settled) = rate_of(counts, money, stood.code) else {
        return no_line();
    };
    let rate = settled.rate;
    let carried = worth(stood.net, stood.previous, rate);
    let made = price(labels, amounts, used, stood.code, rate);
    Line {
        settled,
        carried,
        sum: made + carried,
    }
}

// After an accepted close: sets the amounts of the table's rows at the settlement rates, and answers for each contract that stood before it
// the rate, the rule and the count used, what the position carried over earned, and the sum of all the account's lines in it.
// The table is lent as the caller keeps it, with the number of its rows beside, since docs/CONTRACTS.md promises this call.
pub fn close_lines(
    counts: &[u64; COUNTS],
    money: &[i64; MONEY],
    labels: &[u64],
    amounts: &mut [i64],
    used: usize,
    before: [Stood; 6],
) -> [Line; 6]
    requires { Closing counts.now money.now labels.now amounts.old used before }
    ensures { ExplainedAll counts.now money.now labels.now amounts.old used before result amounts.new }
{
    let mut lines = [no_line(); 6];
    for (k, stood) in before.iter().enumerate() {
        lines[k] = line_of(counts, money, labels, amounts, used, *stood);
    }
    lines
}
