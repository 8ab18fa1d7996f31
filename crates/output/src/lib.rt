// What a program prints, collected in a lent buffer of bytes, so that it is written in large pieces. The Rust has no counterpart.
#![tactic(auto)]

ghost use Rattle.std.specs.Prelude.{◌≡◌, [], ◌∷◌, ◌++◌, ◌+◌, ◌≤◌, length, take};
ghost use Rattle.output.specs.inner.Printing.{PutPost, PutWithin, decimal, line};

// The descriptor of standard output.
const STANDARD_OUTPUT: i32 = 1;

// What is printed next, in the order of its bytes: those before a place of a lent buffer. Its methods put numbers, and not `write!`: of that std says
// what it writes only where it answers `Ok`, and nowhere that it does; and it takes one and a half times as long.
#[derive(Drop)]
pub struct Output<'a> {
    pub buffer: &'a mut [u8],
    pub at: usize,
    pub ghost in_buffer: { at ≤ length buffer.now },
}

impl Output<'_> {
    // Puts a word.
    #[tactic(auto, using(crate::proofs::Writing::put_bytes))]
    pub fn put(&mut self, word: &[u8])
        requires { self.old.at + length word.now ≤ length self.old.buffer.now }
        ensures bytes { PutPost word.now self.old.at self.old.buffer.now self.new.buffer.now self.new.at }
        ensures kept { length self.new.buffer.now ≡ length self.old.buffer.now }
    {
        let end = self.at + word.len();
        self.buffer[self.at..end].copy_from_slice(word);
        self.at = end;
    }

    // Puts a number in base ten.
    pub fn put_number(&mut self, n: u32)
        requires { self.old.at + 10 ≤ length self.old.buffer.now }
        ensures bytes { PutWithin 10 (decimal n) self.old.at self.old.buffer.now self.new.buffer.now self.new.at }
        ensures kept { length self.new.buffer.now ≡ length self.old.buffer.now }
    {
        let mut digits = [0u8; 20];
        let k = io::decimal(u64::from(n), &mut digits);
        self.put(&digits[..k]);
    }

    // Puts a number and one byte after it.
    fn put_ended(&mut self, n: u32, end: u8)
        requires { self.old.at + 11 ≤ length self.old.buffer.now }
        ensures bytes { PutWithin 11 (decimal n ++ (end ∷ [])) self.old.at self.old.buffer.now self.new.buffer.now self.new.at }
        ensures kept { length self.new.buffer.now ≡ length self.old.buffer.now }
    {
        self.put_number(n);
        self.put(&[end]);
    }

    // Puts a line of two numbers, one space between. Two functions, for two and for four: one of a slice would have a length in each contract.
    pub fn put_two(&mut self, m: u32, n: u32)
        requires { self.old.at + 22 ≤ length self.old.buffer.now }
        ensures bytes { PutWithin 22 (line (m ∷ n ∷ [])) self.old.at self.old.buffer.now self.new.buffer.now self.new.at }
        ensures kept { length self.new.buffer.now ≡ length self.old.buffer.now }
    {
        self.put_ended(m, b' ');
        self.put_ended(n, b'\n');
    }

    // Puts a line of four numbers, one space between.
    pub fn put_four(&mut self, a: u32, b: u32, c: u32, d: u32)
        requires { self.old.at + 44 ≤ length self.old.buffer.now }
        ensures bytes { PutWithin 44 (line (a ∷ b ∷ c ∷ d ∷ [])) self.old.at self.old.buffer.now self.new.buffer.now self.new.at }
        ensures kept { length self.new.buffer.now ≡ length self.old.buffer.now }
    {
        self.put_ended(a, b' ');
        self.put_ended(b, b' ');
        self.put_two(c, d);
    }

    // The bytes that were put.
    fn collected(&self) -> &[u8]
        ensures { result.now ≡ take self.now.at self.now.buffer.now }
    {
        &self.buffer[..self.at]
    }

    // Writes what was put to standard output; the buffer starts anew. What a failed write leaves out is lost: a program has no other way to tell it.
    pub fn flush(&mut self)
        ensures start { self.new.at ≡ 0 }
        ensures buffer { self.new.buffer.now ≡ self.old.buffer.now }
    {
        io::write_all(STANDARD_OUTPUT, self.collected());
        self.at = 0;
    }

    // Makes room for so many bytes: writes the buffer out, if they would not fit.
    pub fn make_space(&mut self, need: usize)
        requires { need ≤ length self.old.buffer.now }
        ensures capacity { self.new.at + need ≤ length self.new.buffer.now }
        ensures buffer { self.new.buffer.now ≡ self.old.buffer.now }
    {
        if self.buffer.len() - self.at < need {
            self.flush();
        }
    }
}
