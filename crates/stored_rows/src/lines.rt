// The lines of an input, one at a time. Words are upper-case hexadecimal, separated by one space; a line that starts with # is a comment.
use std::io;
use std::io::Read;

// A line as far as it is read: without a byte yet, a comment, words, or with an unexpected byte.
#[derive(Clone, Copy)]
enum State {
    Empty,
    Comment,
    Words,
    Broken,
}

// A comment has no words; a line that is not read has one, of no known kind.
#[derive(Clone, Copy)]
pub struct Line {
    // The complete words, and their number.
    pub words: [u64; 32],
    pub count: usize,
    // Can there be a line after it?
    pub more: bool,
    // The next word, if it has a digit yet.
    word: Option<u64>,
    state: State,
}

fn digit_value(byte: u8) -> Option<u8> {
    match byte {
        b'0'..=b'9' => Some(byte - b'0'),
        b'A'..=b'F' => Some(byte - b'A' + 10),
        _ => None,
    }
}

// The word with one more digit. There is none after a leading zero, and no 17th digit.
fn longer(word: Option<u64>, digit: u8) -> Option<u64> {
    match word {
        None => Some(u64::from(digit)),
        Some(0) => None,
        Some(w) => w.checked_mul(16)?.checked_add(u64::from(digit)),
    }
}

impl Line {
    fn new() -> Line {
        Line {
            words: [0; 32],
            count: 0,
            more: true,
            word: None,
            state: State::Empty,
        }
    }

    fn broken(mut self) -> Line {
        self.state = State::Broken;
        self
    }

    fn with_byte(mut self, byte: u8) -> Line {
        match digit_value(byte).and_then(|digit| longer(self.word, digit)) {
            Some(word) => {
                self.word = Some(word);
                self.state = State::Words;
                self
            }
            None => self.broken(),
        }
    }

    // Broken: a word without a digit, a 33rd word.
    fn word_ended(mut self) -> Line {
        let at = self.count;
        match self.word {
            Some(word) if at < 32 => {
                self.words[at] = word;
                self.count = at + 1;
                self.word = None;
                self
            }
            _ => self.broken(),
        }
    }

    // Any byte but a line feed.
    fn step(mut self, byte: u8) -> Line {
        match self.state {
            State::Comment | State::Broken => self,
            State::Empty if byte == b'#' => {
                self.state = State::Comment;
                self
            }
            _ => {
                if byte == b' ' {
                    return self.word_ended();
                }
                self.with_byte(byte)
            }
        }
    }

    fn without_words(mut self) -> Line {
        self.count = 0;
        self
    }

    fn unread(mut self) -> Line {
        self.words[0] = u64::MAX;
        self.count = 1;
        self
    }

    // At a line feed.
    fn at_line_feed(self) -> Line {
        if let State::Comment = self.state {
            return self.without_words();
        }
        let line = self.word_ended();
        match line.state {
            State::Broken => line.unread(),
            _ => line,
        }
    }

    // At the end of the input: a line without a line feed is not read.
    fn at_end(mut self) -> Line {
        self.more = false;
        match self.state {
            State::Empty | State::Comment => self.without_words(),
            _ => self.unread(),
        }
    }

    // Nor is one at which a read fails.
    fn at_failure(mut self) -> Line {
        self.more = false;
        self.unread()
    }
}

// A byte; `None` at the end. The input is small enough to be read byte by byte.
fn next_byte<R: Read>(reader: &mut R) -> io::Result<Option<u8>> {
    let mut buffer: [u8; 1] = [0];
    match standard_input::read_part(reader, &mut buffer, 0)? {
        Some(_) => Ok(Some(buffer[0])),
        None => Ok(None),
    }
}

// A line may have any length, and a loop must terminate: the number of its turns is one that no run uses up.
pub fn next_line<R: Read>(reader: &mut R) -> Line {
    let mut line = Line::new();
    for _ in 0..u64::MAX {
        match next_byte(reader) {
            Ok(Some(b'\n')) => return line.at_line_feed(),
            Ok(Some(byte)) => line = line.step(byte),
            Ok(None) => return line.at_end(),
            Err(_) => return line.at_failure(),
        }
    }
    line.at_failure()
}
