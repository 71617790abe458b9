// Where a key stands among the rows of a table. Accounts are found by number, contracts and outcomes by code.
ghost use Rattle.std.specs.Prelude.{◌≡◌, ◌+◌, ◌*◌, ◌<◌, ◌≤◌, length, get_or};
ghost use Rattle.lists.specs.Seek.{seek};
ghost use Rattle.memory.specs.Layout.{counts_long, header_at, number_at, code_at, settled_code_at};

fn find(counts: &[u64], first: usize, width: usize, rows: usize, key: u64) -> Option<usize>
    requires { (first + rows * width ≤ length counts.now) × (0 < width) }
    ensures { result ≡ seek (λ i. get_or counts.now (first + i * width) 0) key rows 0 }
{
    (0..rows).find(|&i| counts[first + i * width] == key)
}

// Where the account of a number stands, if it is enrolled.
pub fn find_account(counts: &[u64], number: u64) -> Option<usize>
    requires { (length counts.now ≡ counts_long) × ((header_at counts.now).members ≤ 64) }
    ensures { result ≡ seek (number_at counts.now) number (header_at counts.now).members 0 }
{
    let members = counts[9] as usize;
    find(counts, 500, 4, members, number)
}

// Where the contract of a code stands, if it is listed.
pub fn find_contract(counts: &[u64], code: u64) -> Option<usize>
    requires { (length counts.now ≡ counts_long) × ((header_at counts.now).listed ≤ 6) }
    ensures { result ≡ seek (code_at counts.now) code (header_at counts.now).listed 0 }
{
    let listed = counts[7] as usize;
    find(counts, 410, 12, listed, code)
}

// Where the last close's outcome for a code stands, if the code was listed then.
pub fn find_outcome(counts: &[u64], code: u64) -> Option<usize>
    requires { (length counts.now ≡ counts_long) × ((header_at counts.now).settled ≤ 6) }
    ensures { result ≡ seek (settled_code_at counts.now) code (header_at counts.now).settled 0 }
{
    let settled = counts[8] as usize;
    find(counts, 482, 3, settled, code)
}
