// The words of a line after its first, each written with a space before it.
ghost use Rattle.std.specs.Prelude.{◌∷◌, ◌++◌};
ghost use Rattle.place_text.specs.Numerals.{hex8, decimal, signed_decimal};
ghost use Rattle.place_text.specs.Text.{evidence_word};
ghost use Rattle.place_text.specs.Writing.{Wrote};

use super::writer::Page;
use ranking::Evidence;

impl<'a> Page<'a> {
    pub fn and_decimal(&mut self, n: u64)
        ensures { Wrote (32 ∷ decimal n) self.old self.new }
    {
        self.put(b' ');
        self.put_decimal(n);
    }

    pub fn and_signed(&mut self, z: i32)
        ensures { Wrote (32 ∷ signed_decimal z) self.old self.new }
    {
        self.put(b' ');
        self.put_signed(z);
    }

    pub fn and_hex8(&mut self, n: u32)
        ensures { Wrote (32 ∷ hex8 n) self.old self.new }
    {
        self.put(b' ');
        self.put_hex8(n);
    }

    pub fn and_hex16(&mut self, high: u32, low: u32)
        ensures { Wrote (32 ∷ (hex8 high ++ hex8 low)) self.old self.new }
    {
        self.and_hex8(high);
        self.put_hex8(low);
    }

    pub fn and_evidence(&mut self, evidence: Evidence)
        ensures { Wrote (32 ∷ evidence_word evidence) self.old self.new }
    {
        match evidence {
            Evidence::Number(x) => self.and_hex8(floats::to_bits(x)),
            Evidence::Absent => self.put_all(b" none"),
        }
    }
}
