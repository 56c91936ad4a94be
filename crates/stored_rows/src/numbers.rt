// The values of the words of a row, and the elements of the output arrays.

// An element; the default past the end.
pub fn element<T: Copy + Default>(list: &[T], i: usize) -> T {
    list.get(i).copied().unwrap_or_default()
}

pub fn low(w: u64) -> u32 {
    (w % 0x1_0000_0000) as u32
}

pub fn high(w: u64) -> u32 {
    (w / 0x1_0000_0000) as u32
}

pub fn byte(w: u64) -> u8 {
    (w % 256) as u8
}

// A row of a kind above FF has the meaning of the kind 100 less, for a legacy board.
pub fn kind(w: u64) -> u64 {
    w % 256
}

pub fn legacy(w: u64) -> u32 {
    low(w / 256)
}

// The low halves of a row's words.
pub fn lows(row: [u64; 32]) -> [u32; 32] {
    let mut bits: [u32; 32] = [0; 32];
    for k in 0..32 {
        bits[k] = low(row[k]);
    }
    bits
}

// The signed number with these bits; 0 for a number out of range.
pub fn short(bits: u32) -> i16 {
    i16::try_from(bits.cast_signed()).unwrap_or(0)
}

// A number of an output array: the value with these 32 bits, and its bits.
pub trait Number: Copy {
    fn of_bits(bits: u32) -> Self;

    fn bits(self) -> u32;
}

// The low 8 bits.
impl Number for u8 {
    fn of_bits(bits: u32) -> u8 {
        (bits % 256) as u8
    }

    fn bits(self) -> u32 {
        u32::from(self)
    }
}

impl Number for u32 {
    fn of_bits(bits: u32) -> u32 {
        bits
    }

    fn bits(self) -> u32 {
        self
    }
}

impl Number for i32 {
    fn of_bits(bits: u32) -> i32 {
        bits.cast_signed()
    }

    fn bits(self) -> u32 {
        self.cast_unsigned()
    }
}

impl Number for f32 {
    fn of_bits(bits: u32) -> f32 {
        floats::from_bits(bits)
    }

    fn bits(self) -> u32 {
        floats::to_bits(self)
    }
}
