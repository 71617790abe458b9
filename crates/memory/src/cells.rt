// Cells written into the memory, from a place on.
ghost use Rattle.std.specs.Prelude.{◌≡◌, ◌+◌, ◌≤◌, length};
ghost use Rattle.lists.specs.Parts.{with_part};

// A loop, since rows are short: copy_from_slice takes four times as long to put a contract's.
pub(crate) fn put_cells<T: Copy>(memory: &mut [T], first: usize, cells: &[T])
    requires { first + length cells.now ≤ length memory.old }
    ensures { memory.new ≡ with_part first (length cells.now) memory.old cells.now }
{
    for (i, cell) in cells.iter().enumerate() {
        memory[first + i] = *cell;
    }
}
