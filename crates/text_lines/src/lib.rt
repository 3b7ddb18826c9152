// Text: bytes, words and decimal numbers, put one after the other into a lent slice. It serves the crates that make files and texts, which know that
// there is room; it is not for end users.
#![tactic(auto)]

ghost use Rattle.std.specs.Prelude.{◌≡◌, ◌+◌, ◌≤◌, ◌<◌, [], ◌∷◌, length};
ghost use Rattle.text_lines.specs.Lines.{PutText, decimal, field};
ghost use Rattle.text_lines.specs.Pieces.{HasRoom, Puts};

// A text that is being put together: a lent slice, and how many of its bytes stand already.
#[derive(Drop)]
pub struct Text<'a> {
    bytes: &'a mut [u8],
    pub length: usize,
}

impl<'a> Text<'a> {
    // A text of which `length` bytes stand already.
    pub fn new(bytes: &'a mut [u8], length: usize) -> Text<'a>
        ensures same_reference { result.bytes.ghost_name ≡ bytes.entry.ghost_name }
        ensures bytes { result.bytes.now ≡ bytes.old }
        ensures length { result.length ≡ length }
    {
        Text { bytes, length }
    }

    // Puts one byte.
    fn put_byte(&mut self, byte: u8)
        requires { HasRoom self.old 1 }
        ensures { Puts self.old (byte ∷ []) self.new }
    {
        self.bytes[self.length] = byte;
        self.length += 1;
    }

    // Puts a word.
    pub fn put_word(&mut self, word: &[u8])
        requires { HasRoom self.old (length word.now) }
        ensures { Puts self.old word.now self.new }
    {
        let end = self.length + word.len();
        self.bytes[self.length..end].copy_from_slice(word);
        self.length = end;
    }

    // Puts a number in decimal, at most twenty digits. It calls itself for the digits in front of the last, so it is at most twenty calls deep.
    // Not by `write!`: its `Err` would be a way out that no caller has.
    pub fn put_decimal(&mut self, value: u64)
        requires { HasRoom self.old 20 }
        ensures puts { Puts self.old (decimal value) self.new }
        ensures upper_bound { self.new.length ≤ self.old.length + 20 }
    {
        if value < 10 {
            return self.put_byte(b'0' + value as u8);
        }
        self.put_decimal(value / 10);
        self.put_byte(b'0' + (value % 10) as u8);
    }

    // Puts a space and a number.
    pub fn put_field(&mut self, value: u64)
        requires { HasRoom self.old 21 }
        ensures puts { Puts self.old (field value) self.new }
        ensures upper_bound { self.new.length ≤ self.old.length + 21 }
    {
        self.put_byte(b' ');
        self.put_decimal(value);
    }

    // Ends a line.
    pub fn put_end(&mut self)
        requires { HasRoom self.old 1 }
        ensures { Puts self.old (10 ∷ []) self.new }
    {
        self.put_byte(b'\n');
    }
}

// Puts a word, and gives the place after it.
pub fn put_word(text: &mut [u8], at: usize, word: &[u8]) -> usize
    requires { at + length word.now ≤ length text.old }
    ensures { PutText text.old at word.now text.new result }
{
    let mut line = Text::new(text, at);
    line.put_word(word);
    line.length
}

// Puts a number in decimal, at most twenty digits, and gives the place after it.
pub fn put_decimal(text: &mut [u8], at: usize, value: u64) -> usize
    requires { at + 20 ≤ length text.old }
    ensures put_text { PutText text.old at (decimal value) text.new result }
    ensures upper_bound { result ≤ at + 20 }
{
    let mut line = Text::new(text, at);
    line.put_decimal(value);
    line.length
}

// Puts a space and a number, and gives the place after them.
pub fn put_field(text: &mut [u8], at: usize, value: u64) -> usize
    requires { at + 21 ≤ length text.old }
    ensures put_text { PutText text.old at (field value) text.new result }
    ensures upper_bound { result ≤ at + 21 }
{
    let mut line = Text::new(text, at);
    line.put_field(value);
    line.length
}

// Ends a line, and gives the place after it.
pub fn put_end(text: &mut [u8], at: usize) -> usize
    requires { at < length text.old }
    ensures { PutText text.old at (10 ∷ []) text.new result }
{
    let mut line = Text::new(text, at);
    line.put_end();
    line.length
}
