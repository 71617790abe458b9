// What a close makes of the contracts' rows and of the header.
ghost use Rattle.std.specs.Prelude.{◌≡◌, length};
ghost use Rattle.memory.specs.Layout.{Long, counts_long, header_at, with_header};
ghost use Rattle.standing.specs.CloseRows.{renewed_at, renewed_with, shut_header};
ghost use Rattle.standing.specs.Turns.{Tells, Turns};

use memory::{
    Contract, Header, load_contract, load_header, load_outcome, store_contract, store_header,
};
use tallies::empty_tally;

// The contract in row k with its new rate and an empty tally, and a blank one past the last row.
fn renewed_at(counts: &[u64], money: &[i64], k: usize) -> Contract
    requires { Long counts.now money.now }
    ensures { Tells counts.now money.now result (λ r. renewed_at r k) }
{
    let tally = empty_tally();
    if k < 6 {
        let x = load_contract(counts, money, k);
        let o = load_outcome(counts, money, k);
        return Contract {
            previous: o.rate,
            tally,
            ..x
        };
    }
    Contract {
        code: 0,
        margin: 0,
        previous: 0,
        tally,
    }
}

// The contracts renewed, and moved up where the first has ended.
pub(crate) fn renew_contracts(counts: &mut [u64], money: &mut [i64], ended: bool)
    requires { Long counts.old money.old }
    ensures { Turns counts.old money.old counts.new money.new (renewed_with ended) }
{
    let gone = ended as usize;
    for k in 0..6 {
        let x = renewed_at(counts, money, k + gone);
        store_contract(counts, money, k, x);
    }
}

// The day is over.
pub(crate) fn shut_header(counts: &mut [u64], ended: bool)
    requires { length counts.old ≡ counts_long }
    ensures { counts.new ≡ with_header counts.old (shut_header ended (header_at counts.old)) }
{
    let h = load_header(counts);
    let x = Header {
        point: 4,
        clock: 0,
        trades: 0,
        listed: 6 - ended as u64,
        settled: 6,
        ..h
    };
    store_header(counts, x);
}
