// The account that a call names.
#![tactic(auto)]

ghost use Rattle.std.specs.Prelude.{◌≡◌, ◌≤◌, length};
ghost use Rattle.memory.specs.Layout.{counts_long, header_at};
ghost use Rattle.places.specs.Places.{place_in};

use memory::find_account;
use refusals::Refusal;

// The row of an account, where the call that names it is allowed.
pub fn place_of(counts: &[u64], allowed: bool, number: u64) -> Result<usize, Refusal>
    requires { (length counts.now ≡ counts_long) × ((header_at counts.now).members ≤ 64) }
    ensures { result ≡ place_in counts.now allowed number }
{
    if !allowed {
        return Err(Refusal::NotNow);
    }
    find_account(counts, number).ok_or(Refusal::UnknownAccount)
}
