// A bitmap in a record, lowest bit first. A byte past the end of the record counts as 0.
ghost use Rattle.std.specs.Prelude.{◌≡◌, ℕ, ◌^◌, ◌<◌, ◌≤◌, ltb};
ghost use Rattle.shot_record.specs.Fields.{map_of, is_set};

use super::numbers;

// Is bit k of a bitmap with more than k bits set?
pub fn is_set(bytes: &[u8], at: usize, k: usize) -> bool
    requires { (at ≤ 2 ^ 30) × (k ≤ 2 ^ 30) }
    ensures { (n : ℕ) → k < n → result ≡ is_set (map_of n at bytes.now) k }
{
    numbers::is_set(numbers::byte_at(bytes, at + k / 8), k % 8)
}

// Are the unused bits of a bitmap of n bits 0? All of them are in its last byte.
pub fn is_clear(bytes: &[u8], at: usize, n: usize) -> bool
    requires { (at ≤ 2 ^ 30) × (n ≤ 2 ^ 30) }
    ensures { result ≡ ltb (map_of n at bytes.now) (2 ^ n) }
{
    let used = n % 8;
    if used == 0 {
        return true;
    }
    numbers::byte_at(bytes, at + n / 8) >> used == 0
}
