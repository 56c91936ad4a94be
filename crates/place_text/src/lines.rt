// The lines of a result except those of its markers.
ghost use Rattle.std.specs.Prelude.{[], ◌∷◌};
ghost use Rattle.place_text.specs.Numerals.{decimal};
ghost use Rattle.place_text.specs.Text.{line, float_word, hypothesis_line, next_line, corners_line, refusal_line};
ghost use Rattle.place_text.specs.Writing.{Wrote};

use super::writer::Page;
use grid_alignment::GridAlignment;
use ranking::Hypothesis;
use refusal::Refusal;

impl<'a> Page<'a> {
    pub fn put_hypothesis(&mut self, first: &[u8], h: Hypothesis)
        ensures { Wrote (hypothesis_line first.now h) self.old self.new }
    {
        let a = h.alignment;
        let evidence = h.evidence;
        self.put_all(first);
        self.and_decimal(a.turn as u64);
        self.and_signed(a.tx);
        self.and_signed(a.ty);
        self.and_evidence(evidence);
        self.and_decimal(h.contributing_cells as u64);
        self.put(b'\n');
    }

    pub fn put_next(&mut self, runner_up: Option<Hypothesis>)
        ensures { Wrote (next_line runner_up) self.old self.new }
    {
        match runner_up {
            Some(h) => self.put_hypothesis(b"next", h),
            None => self.put_all(b"next absent\n"),
        }
    }

    pub fn put_corners(&mut self, a: GridAlignment)
        ensures { Wrote (corners_line a) self.old self.new }
    {
        self.put_all(b"corners");
        self.and_decimal(a.turn as u64);
        self.and_signed(a.tx);
        self.and_signed(a.ty);
        self.put(b'\n');
    }

    pub fn put_float(&mut self, first: &[u8], x: f32)
        ensures { Wrote (line first.now (float_word x ∷ [])) self.old self.new }
    {
        self.put_all(first);
        self.and_hex8(floats::to_bits(x));
        self.put(b'\n');
    }

    pub fn put_number(&mut self, first: &[u8], n: u64)
        ensures { Wrote (line first.now (decimal n ∷ [])) self.old self.new }
    {
        self.put_all(first);
        self.and_decimal(n);
        self.put(b'\n');
    }

    // Of all values of errors, only the margin of 16 is printed.
    pub fn put_refusal(&mut self, refusal: Refusal)
        ensures { Wrote (refusal_line refusal) self.old self.new }
    {
        let number = refusal.number();
        if number != 16 {
            self.put_number(b"refused", number as u64);
            return;
        }
        self.put_all(b"refused");
        self.and_decimal(number as u64);
        self.and_hex8(refusal.value(0));
        self.put(b'\n');
    }
}
