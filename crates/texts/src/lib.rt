// Lines of text, built part by part in a lent buffer; a part that has no room is cut.
// `proofs/Claims.antt` is the page to read first.
#![tactic(auto)]

ghost use Rattle.std.specs.Prelude.{◌-◌, [], ◌∷◌};

// A line so far, in a lent buffer whose other bytes stay as they were.
#[derive(Drop)]
pub struct Line<'a> {
    buffer: &'a mut [u8],
    // Where the line ends. A place behind the buffer counts as the buffer's end.
    pub end: usize,
}

impl<'a> Line<'a> {
    ghost use Rattle.texts.specs.Lines.{Begins, Adds};
    ghost use Rattle.texts.specs.Columns.{blanks, right_in, left_in};

    // A line of no byte.
    pub fn new(buffer: &'a mut [u8]) -> Line<'a>
        ensures { Begins buffer.entry result }
    {
        Line { buffer, end: 0 }
    }

    pub fn push(&mut self, byte: u8)
        ensures { Adds (byte ∷ []) self.old self.new }
    {
        if self.end < self.buffer.len() {
            self.buffer[self.end] = byte;
            self.end += 1;
        } else {
            self.end = self.buffer.len();
        }
    }

    pub fn push_text(&mut self, text: &[u8])
        ensures { Adds text.now self.old self.new }
    {
        self.end = self.end.min(self.buffer.len());
        for &byte in text {
            self.push(byte);
        }
    }

    // What is left of a column of which so many bytes are used.
    fn push_blanks(&mut self, width: usize, used: usize)
        ensures { Adds (blanks (width - used)) self.old self.new }
    {
        self.end = self.end.min(self.buffer.len());
        for _ in 0..width.saturating_sub(used) {
            self.push(b' ');
        }
    }

    // The text in a column, at its right.
    pub fn push_right(&mut self, width: usize, text: &[u8])
        ensures { Adds (right_in width text.now) self.old self.new }
    {
        self.push_blanks(width, text.len());
        self.push_text(text);
    }

    // The text in a column, at its left.
    pub fn push_left(&mut self, width: usize, text: &[u8])
        ensures { Adds (left_in width text.now) self.old self.new }
    {
        let used = text.len();
        self.push_text(text);
        self.push_blanks(width, used);
    }
}
