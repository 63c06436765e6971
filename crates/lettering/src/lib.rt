// Bytes, words and decimal numbers put into a buffer, one behind the other.
#![tactic(auto)]

ghost use Rattle.std.specs.Prelude.{[], ◌∷◌, ◌++◌, ◌+◌, ◌≤◌, length};
ghost use Rattle.paper.specs.Lines.{decimal, space, line_of};
ghost use Rattle.lettering.specs.Put.{HasRoom, Wrote};

// A buffer, and the place in it where the next byte goes.
#[derive(Drop)]
pub struct Pen<'a> {
    pub out: &'a mut [u8],
    pub at: usize,
}

impl<'a> Pen<'a> {
    pub fn put_byte(&mut self, b: u8)
        requires { HasRoom 1 self.old }
        ensures { Wrote (b ∷ []) 1 self.old self.new }
    {
        self.out[self.at] = b;
        self.at += 1;
    }

    pub fn put_word(&mut self, word: &[u8])
        requires { HasRoom (length word.now) self.old }
        ensures { Wrote word.now (length word.now) self.old self.new }
    {
        let end = self.at + word.len();
        self.out[self.at..end].copy_from_slice(word);
        self.at = end;
    }

    // A number without leading zeros: first what stands before its last digit.
    pub fn put_decimal(&mut self, x: u32)
        requires { HasRoom 10 self.old }
        ensures { Wrote (decimal x) 10 self.old self.new }
    {
        if x < 10 {
            self.put_byte(b'0' + x as u8);
        } else {
            self.put_decimal(x / 10);
            self.put_byte(b'0' + (x % 10) as u8);
        }
    }

    // A space, and then the number.
    pub fn put_next(&mut self, x: u32)
        requires { HasRoom 11 self.old }
        ensures { Wrote (space ∷ decimal x) 11 self.old self.new }
    {
        self.put_byte(b' ');
        self.put_decimal(x);
    }

    // A word, and then the number.
    fn put_named(&mut self, word: &[u8], x: u32)
        requires { HasRoom (length word.now + 10) self.old }
        ensures { Wrote (word.now ++ decimal x) (length word.now + 10) self.old self.new }
    {
        self.put_word(word);
        self.put_decimal(x);
    }

    // A line of two numbers: a word before the first, another between them.
    pub fn put_line(&mut self, before: &[u8], x: u32, between: &[u8], y: u32)
        requires { HasRoom (length before.now + length between.now + 21) self.old }
        ensures { Wrote (line_of before.now x between.now y) (length before.now + length between.now + 21) self.old self.new }
    {
        self.put_named(before, x);
        self.put_named(between, y);
        self.put_byte(b'\n');
    }
}
