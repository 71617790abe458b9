// When trades and quotes are allowed. What both find in the memory and write into it stands in specs/.
#![tactic(auto)]

ghost use Rattle.std.specs.Prelude.{◌≡◌, ◌||◌, eqb};
ghost use Rattle.model.specs.Refusals.{in_hours};

// Whether the day is open, settled or not.
pub fn is_open(point: u64) -> bool
    ensures { result ≡ (eqb point 2 || eqb point 3) }
{
    if point == 2 {
        return true;
    }
    point == 3
}

// From 9:00:00 to 12:00:00 and from 13:30:00 to 16:30:00, the first second in and the last out.
pub fn in_hours(time: u64) -> bool
    ensures { result ≡ in_hours time }
{
    if time < 32400 {
        return false;
    }
    if time < 43200 {
        return true;
    }
    if time < 48600 {
        return false;
    }
    time < 59400
}
