// A listing and its lines. Each line first makes room, so that none is asked whether it fits.
ghost use Rattle.std.specs.Prelude.{◌≤◌, length};

use output::Output;

// Room enough for every line: the longest have four numbers, 44 bytes.
const SPACE: usize = 64;

// What a program lists: lines, collected in a lent buffer that holds any of them once it is written out.
#[derive(Drop)]
pub struct Listing<'a> {
    pub output: Output<'a>,
    pub ghost capacity: { 64 ≤ length output.buffer.now },
}

impl<'a> Listing<'a> {
    // Nothing yet, to be collected in this buffer.
    pub fn new(buffer: &'a mut [u8]) -> Listing<'a>
        requires { 64 ≤ length buffer.old }
    {
        Listing {
            output: Output { buffer, at: 0 },
        }
    }

    // Puts a word or a line that is given whole.
    pub fn words(&mut self, word: &[u8])
        requires { length word.now ≤ 64 }
    {
        self.output.make_space(SPACE);
        self.output.put(word);
    }

    // Puts a number without what follows it.
    pub fn number(&mut self, n: u32) {
        self.output.make_space(SPACE);
        self.output.put_number(n);
    }

    // Puts a line of two numbers.
    pub fn two(&mut self, a: u32, b: u32) {
        self.output.make_space(SPACE);
        self.output.put_two(a, b);
    }

    // Puts a line of four numbers.
    pub fn four(&mut self, a: u32, b: u32, c: u32, d: u32) {
        self.output.make_space(SPACE);
        self.output.put_four(a, b, c, d);
    }
}
