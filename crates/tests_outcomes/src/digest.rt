// Digests of what a call leaves behind (tools/vectors_stream.py): each goes on from the bytes before.
ghost use Rattle.std.specs.Prelude.{◌≡◌, ◌<◌};
ghost use Rattle.image_form.specs.Image.{low_first};
ghost use Rattle.tests_outcomes.specs.Digests.{digest, digest_step, list_bytes, field_bytes};

const MODULUS: u64 = 72057594037927931;

// The digest of some bytes: a number that one more byte can be added to.
#[derive(Clone, Copy, Debug, PartialEq, Eq)]
pub struct Digest {
    pub value: u64,
    pub ghost small: { value < 72057594037927931 },
}

impl Digest {
    // That of no bytes.
    pub fn new() -> Digest
        ensures { result.value ≡ 0 }
    {
        Digest { value: 0 }
    }

    // A byte more.
    pub fn byte(self, byte: u8) -> Digest
        ensures { result.value ≡ digest_step self.value byte }
    {
        Digest {
            value: (self.value * 251 + byte as u64 + 1) % MODULUS,
        }
    }

    pub fn bytes(self, bytes: &[u8]) -> Digest
        ensures { result.value ≡ digest self.value bytes.now }
    {
        let mut digest = self;
        for byte in bytes {
            digest = digest.byte(*byte);
        }
        digest
    }

    // A number in `width` bytes, low byte first.
    pub fn number(self, number: u64, width: usize) -> Digest
        ensures { result.value ≡ digest self.value (low_first width number) }
    {
        let mut digest = self;
        let mut rest = number;
        for place in 0..width {
            digest = digest.byte((rest % 256) as u8);
            rest /= 256;
        }
        digest
    }

    // A list, each place in four bytes.
    pub fn list(self, list: &[u32]) -> Digest
        ensures { result.value ≡ digest self.value (list_bytes list.now) }
    {
        let mut digest = self;
        for number in list {
            digest = digest.number(*number as u64, 4);
        }
        digest
    }

    // The fields of a search: its pattern and its tail are all the bytes that it stores, those past the lengths included.
    pub fn fields(
        self,
        pattern: &[u8],
        pattern_len: usize,
        k: u8,
        method: u8,
        total: u32,
        tail: &[u8],
        tail_len: usize,
    ) -> Digest
        ensures { result.value ≡ digest self.value (field_bytes pattern.now pattern_len k method total tail.now tail_len) }
    {
        self.bytes(pattern)
            .number(pattern_len as u64, 8)
            .byte(k)
            .byte(method)
            .number(total as u64, 4)
            .bytes(tail)
            .number(tail_len as u64, 8)
    }
}
