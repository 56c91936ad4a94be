// The likelihood table (bit_likelihood.rs): the built-in one, and the check of a caller's.
ghost use Rattle.std.specs.Prelude.{◌≡◌};
ghost use Rattle.score_matrix.specs.Table.{entry as entry_of, entry_in_range as rangedOf, is_table, built_in};

use super::built_in::LIKELIHOODS;

pub fn built_in_table() -> [f32; 511]
    ensures { result ≡ built_in }
{
    LIKELIHOODS
}

// Entry d, for d = a - b.
pub fn entry(table: &[f32; 511], a: u8, b: u8) -> f32
    ensures { result ≡ entry_of table.now a b }
{
    table[a as usize + 255 - b as usize]
}

fn ranged(x: f32) -> bool
    ensures { result ≡ rangedOf x }
{
    -8.0 <= x && x <= 0.0
}

// Question 10: Has the table 511 entries, each from -8 to 0?
pub fn is_table(table: &[f32]) -> bool
    ensures { result ≡ is_table table.now }
{
    table.len() == 511 && table.iter().all(|x| ranged(*x))
}
