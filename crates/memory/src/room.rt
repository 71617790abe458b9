// How much memory a book takes, memory with nothing in it, and the list of exceptions put in.
ghost use Rattle.std.specs.Prelude.{◌≡◌, length, replicate, pos, ◌≤◌};
ghost use Rattle.lists.specs.Parts.{with_part};
ghost use Rattle.memory.specs.Layout.{counts_long};

// The header's 10, 400 exceptions, 6 contracts of 12, 6 outcomes of 3 and 64 accounts of 4.
pub const COUNTS: usize = 756;

// The house, 6 contracts of 9, 6 outcomes of 1 and 64 accounts of 29.
pub const MONEY: usize = 1917;

// All cells zero.
pub fn clear(counts: &mut [u64], money: &mut [i64])
    ensures { (counts.new ≡ replicate (length counts.old) 0) × (money.new ≡ replicate (length money.old) (pos 0)) }
{
    counts.fill(0);
    money.fill(0);
}

// The exceptions in the cells after the header.
pub fn store_exceptions(counts: &mut [u64], exceptions: &[u64])
    requires { (length counts.old ≡ counts_long) × (length exceptions.now ≤ 400) }
    ensures { counts.new ≡ with_part 10 (length exceptions.now) counts.old exceptions.now }
{
    counts[10..10 + exceptions.len()].copy_from_slice(exceptions);
}
