// Little-endian numbers in the bytes of a record. A byte past the end of the record counts as 0.
ghost use Rattle.std.specs.Prelude.{◌≡◌, ◌*◌, ◌^◌, ◌<◌, ◌≤◌};
ghost use Rattle.std.specs.Int.{w16};
ghost use Rattle.std.proofs.Common.{to_z};
ghost use Rattle.matcher.specs.Codes.{bit as bit_of};
ghost use Rattle.shot_record.specs.Fields.{byte, number, is_set};
ghost use Rattle.shot_record.specs.Answers.{of_pattern};

pub fn byte_at(bytes: &[u8], at: usize) -> u8
    ensures { result ≡ byte at bytes.now }
{
    bytes.get(at).copied().unwrap_or(0)
}

// n bytes, the highest first.
fn number_at(bytes: &[u8], at: usize, n: usize) -> u64
    requires { (n ≤ 8) × (at ≤ 2 ^ 40) }
    ensures value { result ≡ number n at bytes.now }
    ensures below { result < 2 ^ (8 * n) }
{
    let mut x: u64 = 0;
    for k in (0..n).rev() {
        x = x * 256 + byte_at(bytes, at + k) as u64;
    }
    x
}

// 2 and 4 bytes inside the record are one load. 8 bytes are twice 4.
pub fn two_at(bytes: &[u8], at: usize) -> u32
    requires { at ≤ 2 ^ 40 }
    ensures value { result ≡ number 2 at bytes.now }
    ensures below { result < 65536 }
{
    if at + 1 < bytes.len() {
        return u16::from_le_bytes([bytes[at], bytes[at + 1]]) as u32;
    }
    number_at(bytes, at, 2) as u32
}

pub fn four_at(bytes: &[u8], at: usize) -> u32
    requires { at ≤ 2 ^ 40 }
    ensures { result ≡ number 4 at bytes.now }
{
    if at + 3 < bytes.len() {
        return u32::from_le_bytes([bytes[at], bytes[at + 1], bytes[at + 2], bytes[at + 3]]);
    }
    number_at(bytes, at, 4) as u32
}

pub fn eight_at(bytes: &[u8], at: usize) -> u64
    requires { at ≤ 2 ^ 39 }
    ensures { result ≡ number 8 at bytes.now }
{
    four_at(bytes, at) as u64 + four_at(bytes, at + 4) as u64 * 0x1_0000_0000
}

pub fn count_at(bytes: &[u8], at: usize) -> usize
    requires { at ≤ 2 ^ 40 }
    ensures value { result ≡ number 2 at bytes.now }
    ensures below { result < 65536 }
{
    two_at(bytes, at) as usize
}

pub fn float_at(bytes: &[u8], at: usize) -> f32
    requires { at ≤ 2 ^ 40 }
    ensures { result ≡ of_pattern (number 4 at bytes.now) }
{
    floats::from_bits(four_at(bytes, at))
}

// Two's complement.
pub fn coordinate(x: u32) -> i16
    requires { x < 65536 }
    ensures { result ≡ to_z w16 x }
{
    (x as u16).cast_signed()
}

// Bit k as a number, for sums of offsets.
pub fn bit(x: u8, k: usize) -> usize
    requires { k < 8 }
    ensures value { result ≡ bit_of x k }
    ensures below { result < 2 }
{
    ((x >> k) % 2) as usize
}

pub fn is_set(x: u8, k: usize) -> bool
    requires { k < 8 }
    ensures { result ≡ is_set x k }
{
    bit(x, k) != 0
}
