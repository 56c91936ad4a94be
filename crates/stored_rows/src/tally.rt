// The effects of rows, and how many of them agree.
use std::io::Write;

// The used lengths of the lists.
#[derive(Clone, Copy)]
pub struct Used {
    pub bytes: usize,
    pub words: usize,
}

// The effect of a row: the used length after adding, or whether the result agrees.
#[derive(Clone, Copy)]
pub enum Effect {
    Nothing,
    Unread,
    Emptied,
    Bytes(usize),
    Words(usize),
    Asked(bool),
}

pub fn used_after(mut used: Used, effect: Effect) -> Used {
    match effect {
        Effect::Emptied => Used { bytes: 0, words: 0 },
        Effect::Bytes(n) => {
            used.bytes = n;
            used
        }
        Effect::Words(n) => {
            used.words = n;
            used
        }
        _ => used,
    }
}

// Rows that are compared, those of them that agree, rows that are not read, and lines. The counts saturate, since an input may have any length.
#[derive(Clone, Copy)]
pub struct Tally {
    asked: u64,
    agreed: u64,
    unread: u64,
    lines: u64,
    // The first line that is not read or does not agree.
    first: Option<u64>,
}

impl Tally {
    pub fn new() -> Tally {
        Tally {
            asked: 0,
            agreed: 0,
            unread: 0,
            lines: 0,
            first: None,
        }
    }

    fn failed(mut self) -> Tally {
        self.first = self.first.or(Some(self.lines));
        self
    }

    fn with_unread(mut self) -> Tally {
        self.unread = self.unread.saturating_add(1);
        self.failed()
    }

    fn with_asked(mut self, agrees: bool) -> Tally {
        self.asked = self.asked.saturating_add(1);
        if agrees {
            self.agreed = self.agreed.saturating_add(1);
            return self;
        }
        self.failed()
    }

    // After one more line.
    pub fn with(mut self, effect: Effect) -> Tally {
        self.lines = self.lines.saturating_add(1);
        match effect {
            Effect::Unread => self.with_unread(),
            Effect::Asked(agrees) => self.with_asked(agrees),
            _ => self,
        }
    }
}

// A failed write is not told: `replay` has no other output.
fn print_count<W: Write>(output: &mut W, name: &[u8], count: u64) {
    let _ = standard_output::write_all(output, name);
    let _ = write!(output, "{count}");
}

pub fn print_all<W: Write>(output: &mut W, tally: Tally) {
    if let Some(first) = tally.first {
        print_count(output, b"the first that fails is line ", first);
        let _ = standard_output::write_all(output, b"\n");
    }
    print_count(output, b"not read: ", tally.unread);
    print_count(output, b"\nagree: ", tally.agreed);
    print_count(output, b" of ", tally.asked);
    let _ = standard_output::write_all(output, b"\n");
}
