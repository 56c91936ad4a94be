// Writes results to the start of an output array, later elements unchanged, and moves elements within an array.
// The laws are in `proofs/Front.antt`, `proofs/Loops.antt` and `proofs/Moves.antt`.

#![tactic(auto)]

ghost use Rattle.std.specs.Prelude.{◌≡◌, ◌+◌, ◌≤◌, length, take, drop};
ghost use Rattle.lent_list.specs.Front.{in_front, Put};

// Writes the items to list[at], list[at + 1], … and returns the index after them.
pub fn put<T: Copy>(list: &mut [T], at: usize, items: &[T]) -> usize
    requires { at + length items.now ≤ length list.old }
    ensures { Put list.old list.new at result items.now }
{
    // Not `copy_from_slice`, for which the C library would need `memmove`.
    for (k, item) in items.iter().enumerate() {
        list[at + k] = *item;
    }
    at + items.len()
}

// Writes the items to list[0], list[1], …, truncated to the length of the list.
pub fn put_front<T: Copy>(list: &mut [T], items: &[T])
    ensures { list.new ≡ in_front items.now list.old }
{
    let count = items.len().min(list.len());
    put(list, 0, &items[..count]);
}

// Moves the n items from index `from` on to index `to`, which is not after it. The two parts may overlap.
pub fn move_down<T: Copy>(list: &mut [T], from: usize, to: usize, n: usize)
    requires { (to ≤ from) × (from + n ≤ length list.old) }
    ensures { Put list.old list.new to (to + n) (take n (drop from list.old)) }
{
    for i in 0..n {
        list[to + i] = list[from + i];
    }
}
