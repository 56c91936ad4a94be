// Formats the text of a log of shot records, entry by entry, from bytes that come in pieces of any size (document 02, 2.9).

#![tactic(auto)]

ghost use Rattle.std.specs.Prelude.{◌≡◌, false, ◌≤◌, ◌<◌, length, take, drop};
ghost use Rattle.place_text.specs.Writing.{Printed};
ghost use Rattle.log_text.specs.Log.{is_whole, rest_text};
ghost use Rattle.log_text.specs.Rules.{Takes};

mod entries;
mod lines;

use place_text::writer::Page;

// The number of bytes that were read, the number of bytes of their lines, and the highest number of the entries up to them, if there is one.
#[derive(Clone, Copy)]
pub struct Fed {
    pub used: usize,
    pub written: usize,
    pub highest: Option<u32>,
}

// Writes the lines of the whole entries at the start of the bytes to the start of the text, as long as it has room for those of one more.
pub fn feed(bytes: &[u8], highest: Option<u32>, text: &mut [u8]) -> Fed
    ensures lines { Takes highest bytes.now result.highest (drop result.used bytes.now) (take result.written text.new) }
    ensures inside { (result.used ≤ length bytes.now) × (result.written ≤ length text.new) }
    ensures progress { result.used ≡ 0 → 76 ≤ length text.old
        → (is_whole bytes.now ≡ false) × (length bytes.now < 65541) }
{
    let mut markers: [u32; 4608] = [0; 4608];
    let mut page = Page { text, at: 0 };
    let mut used = 0;
    let mut seen = highest;
    while 76 <= page.text.len() - page.at {
        let rest = &bytes[used..];
        let Some(end) = entries::whole_end(rest) else {
            break;
        };
        let number = entries::number(rest);
        lines::put_lines(&mut page, seen, number, &rest[6..end], &mut markers);
        seen = entries::raised(seen, number);
        used += end;
    }
    Fed {
        used,
        written: page.at,
        highest: seen,
    }
}

// The text of the bytes after the last whole entry, at the end of a log. Returns its length.
pub fn finish(bytes: &[u8], text: &mut [u8]) -> usize
    ensures line { is_whole bytes.now ≡ false → Printed (rest_text bytes.now) 0 result text.old text.new }
    ensures room { result ≤ length text.new }
{
    let count = bytes.len();
    if count == 0 {
        return 0;
    }
    let mut page = Page { text, at: 0 };
    lines::put_cut(&mut page, count);
    page.at
}
