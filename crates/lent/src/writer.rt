// A lent buffer that is written piece by piece, each after the one before it.
ghost use Rattle.std.specs.Prelude.{◌≡◌, ◌∷◌, [], replicate};
ghost use Rattle.lent.specs.Appended.{RoomFor, Appended};

// A lent buffer, and the place in it after what was written.
#[derive(Drop)]
pub struct Writer<'a> {
    buffer: &'a mut [u8],
    pub at: usize,
}

impl<'a> Writer<'a> {
    // Begins at a place of the buffer.
    pub fn new(buffer: &'a mut [u8], at: usize) -> Writer<'a>
        ensures same_reference { result.buffer.ghost_name ≡ buffer.entry.ghost_name }
        ensures bytes { result.buffer.now ≡ buffer.old }
        ensures place { result.at ≡ at }
    {
        Writer { buffer, at }
    }

    // Appends a byte.
    pub fn put(&mut self, byte: u8)
        requires { RoomFor self.old (byte ∷ []) }
        ensures { Appended self.old (byte ∷ []) self.new }
    {
        self.buffer[self.at] = byte;
        self.at += 1;
    }

    // Appends all of source.
    pub fn copy(&mut self, source: &[u8])
        requires { RoomFor self.old source.now }
        ensures { Appended self.old source.now self.new }
    {
        self.at = super::copy_in(source, self.buffer, self.at);
    }

    // Appends so many times a byte.
    pub fn fill(&mut self, byte: u8, count: usize)
        requires { RoomFor self.old (replicate count byte) }
        ensures { Appended self.old (replicate count byte) self.new }
    {
        let next = self.at + count;
        self.buffer[self.at..next].fill(byte);
        self.at = next;
    }
}
