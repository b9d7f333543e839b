ghost use Rattle.std.specs.Prelude.{◌≡◌, ℕ, ◌<◌, ◌≤◌, length, slice_index};
ghost use Rattle.std.specs.List.Sorted.{IsPermutation};
ghost use Rattle.cell_store.specs.Turning.{source};

/// Puts the part of the numbers from `middle` to `end - 1` before the one from `start` to `middle - 1`. It
/// takes no memory.
pub fn turn(numbers: &mut Vec<u32>, start: u32, middle: u32, end: u32)
    requires order { (start ≤ middle) × (middle ≤ end) }
    requires end { end ≤ length numbers.old.items }
    ensures long { length numbers.new.items ≡ length numbers.old.items }
    ensures same { IsPermutation numbers.old.items numbers.new.items }
    ensures order { (index : ℕ) → index < length numbers.old.items
        → slice_index numbers.new.items index ≡ slice_index numbers.old.items (source start middle end index) }
{
    numbers[start as usize..end as usize].rotate_left((middle - start) as usize);
}
