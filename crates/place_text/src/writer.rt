// A text to write to: bytes and numbers, one after the other. Bytes past its end are dropped, so it may have any length.
// Not `write!`: `Printed`, which may not change, states each byte for arrays of any length, and std's writers to a slice have no `contents`, so that
// `write!` states no byte there.
ghost use Rattle.std.specs.Prelude.{◌≡◌, [], ◌∷◌, ◌<◌};
ghost use Rattle.place_text.specs.Numerals.{digit as Digit, hex2, hex4, hex8, decimal, signed_decimal};
ghost use Rattle.place_text.specs.Writing.{Wrote};

// The output array, and the index after what is written.
#[derive(Drop)]
pub struct Page<'a> {
    pub text: &'a mut [u8],
    pub at: usize,
}

fn digit(d: u8) -> u8
    requires { d < 16 }
    ensures { result ≡ Digit d }
{
    if d < 10 {
        return b'0' + d;
    }
    b'A' - 10 + d
}

impl<'a> Page<'a> {
    pub fn put(&mut self, byte: u8)
        ensures { Wrote (byte ∷ []) self.old self.new }
    {
        if self.at < self.text.len() {
            self.text[self.at] = byte;
            self.at += 1;
        } else {
            self.at = self.text.len();
        }
    }

    pub fn put_all(&mut self, bytes: &[u8])
        ensures { Wrote bytes.now self.old self.new }
    {
        self.at = self.at.min(self.text.len());
        for byte in bytes {
            self.put(*byte);
        }
    }

    fn put_hex2(&mut self, n: u8)
        ensures { Wrote (hex2 n) self.old self.new }
    {
        self.put(digit(n / 16));
        self.put(digit(n % 16));
    }

    fn put_hex4(&mut self, n: u16)
        ensures { Wrote (hex4 n) self.old self.new }
    {
        self.put_hex2((n / 256) as u8);
        self.put_hex2((n % 256) as u8);
    }

    pub fn put_hex8(&mut self, n: u32)
        ensures { Wrote (hex8 n) self.old self.new }
    {
        self.put_hex4((n / 65536) as u16);
        self.put_hex4((n % 65536) as u16);
    }

    pub fn put_decimal(&mut self, n: u64)
        ensures { Wrote (decimal n) self.old self.new }
    {
        if n < 10 {
            self.put(digit(n as u8));
            return;
        }
        self.put_decimal(n / 10);
        self.put(digit((n % 10) as u8));
    }

    pub fn put_signed(&mut self, z: i32)
        ensures { Wrote (signed_decimal z) self.old self.new }
    {
        let size = u64::from(z.unsigned_abs());
        if z < 0 {
            self.put(b'-');
            self.put_decimal(size);
            return;
        }
        self.put_decimal(size);
    }
}
