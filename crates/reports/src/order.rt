// The lowest key among the rows of a table that is not below a number. Outcomes go by code, accounts by number.
ghost use Rattle.std.specs.Prelude.{◌≡◌, ◌+◌, ◌*◌, ◌<◌, ◌≤◌, length, get_or};
ghost use Rattle.lists.specs.Tabulate.{tab};
ghost use Rattle.memory.specs.Layout.{counts_long, header_at, number_at, settled_code_at};
ghost use Rattle.reports.specs.Reports.{lower_from, lowest_from};

// The lower of a key and what was found so far, where the key is not below `from`.
fn lower_from(from: u64, key: u64, found: Option<u64>) -> Option<u64>
    ensures { result ≡ lower_from from key found }
{
    if key < from {
        return found;
    }
    let Some(k) = found else {
        return Some(key);
    };
    if k < key {
        return found;
    }
    Some(key)
}

// The rows are gone through from the last to the first.
fn lowest(counts: &[u64], first: usize, width: usize, rows: usize, from: u64) -> Option<u64>
    requires { (first + rows * width ≤ length counts.now) × (0 < width) }
    ensures { result ≡ lowest_from from (tab (λ i. get_or counts.now (first + i * width) 0) rows) }
{
    let mut found = None;
    for i in (0..rows).rev() {
        found = lower_from(from, counts[first + i * width], found);
    }
    found
}

// The lowest code of the last close.
pub(crate) fn lowest_code(counts: &[u64], code: u64) -> Option<u64>
    requires { (length counts.now ≡ counts_long) × ((header_at counts.now).settled ≤ 6) }
    ensures { result ≡ lowest_from code (tab (settled_code_at counts.now) (header_at counts.now).settled) }
{
    lowest(counts, 482, 3, counts[8] as usize, code)
}

// The lowest account number.
pub(crate) fn lowest_member(counts: &[u64], number: u64) -> Option<u64>
    requires { (length counts.now ≡ counts_long) × ((header_at counts.now).members ≤ 64) }
    ensures { result ≡ lowest_from number (tab (number_at counts.now) (header_at counts.now).members) }
{
    lowest(counts, 500, 4, counts[9] as usize, number)
}
