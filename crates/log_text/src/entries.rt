// The first entry of a log's bytes, and the highest number after it.
ghost use Rattle.std.specs.Prelude.{◌≡◌};
ghost use Rattle.log_text.specs.Log.{entry_number, whole_end, raised};

use shot_record::numbers;

pub fn number(bytes: &[u8]) -> u32
    ensures { result ≡ entry_number bytes.now }
{
    numbers::four_at(bytes, 0)
}

// Where the entry ends, if it is whole.
pub fn whole_end(bytes: &[u8]) -> Option<usize>
    ensures { result ≡ whole_end bytes.now }
{
    let end = 6 + numbers::count_at(bytes, 4);
    if end <= bytes.len() { Some(end) } else { None }
}

pub fn raised(highest: Option<u32>, n: u32) -> Option<u32>
    ensures { result ≡ raised highest n }
{
    match highest {
        Some(h) if n <= h => highest,
        _ => Some(n),
    }
}
