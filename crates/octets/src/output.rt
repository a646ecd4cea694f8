// Bytes put into a lent output. A `Writer` has the output and the place where it goes on. Its `put_` methods require the space, because
// only writers whose caller has tested the space of a whole body call them. A `write_` function writes a whole body from byte 0 and refuses
// one that doesn't fit.
ghost use Rattle.std.specs.Prelude.{◌≡◌, ◌∷◌, [], ◌+◌, ◌<◌, ◌≤◌, ◌^◌, length};
ghost use Rattle.octets.specs.BigEndian.{digits};
ghost use Rattle.octets.specs.Output.{Begun, Room, Put, Written};

// A lent output is shorter than the body.
#[derive(Clone, Copy, Debug, PartialEq, Eq)]
pub struct NoSpace;

#[derive(Drop)]
pub struct Writer<'a> {
    out: &'a mut [u8],
    at: usize,
}

impl<'a> Writer<'a> {
    pub fn new(out: &'a mut [u8]) -> Writer<'a>
        ensures { Begun out.entry 0 result }
    {
        Writer::starting_at(out, 0)
    }

    pub fn starting_at(out: &'a mut [u8], at: usize) -> Writer<'a>
        ensures { Begun out.entry at result }
    {
        Writer { out, at }
    }

    // The place where it goes on, and so how many bytes it has put.
    pub fn position(&self) -> usize
        ensures { result ≡ self.now.at }
    {
        self.at
    }

    pub fn put_u8(&mut self, b: u8)
        requires { Room self.old 1 }
        ensures put { Put self.old (b ∷ []) self.new }
        ensures value { self.new.at ≡ self.old.at + 1 }
    {
        self.out[self.at] = b;
        self.at += 1;
    }

    // The lowest N bytes of n, the highest of them first.
    fn put_be<const N: usize>(&mut self, n: u64)
        requires in_range { N ≤ 8 }
        requires room { Room self.old N }
        ensures put { Put self.old (digits N n) self.new }
        ensures value { self.new.at ≡ self.old.at + N }
    {
        self.put_bytes(&n.to_be_bytes()[8 - N..]);
    }

    pub fn put_be16(&mut self, n: u16)
        requires { Room self.old 2 }
        ensures put { Put self.old (digits 2 n) self.new }
        ensures value { self.new.at ≡ self.old.at + 2 }
    {
        self.put_be::<2>(n as u64);
    }

    pub fn put_be24(&mut self, n: u32)
        requires in_range { n < 2 ^ 24 }
        requires room { Room self.old 3 }
        ensures put { Put self.old (digits 3 n) self.new }
        ensures value { self.new.at ≡ self.old.at + 3 }
    {
        self.put_be::<3>(n as u64);
    }

    pub fn put_be32(&mut self, n: u32)
        requires { Room self.old 4 }
        ensures put { Put self.old (digits 4 n) self.new }
        ensures value { self.new.at ≡ self.old.at + 4 }
    {
        self.put_be::<4>(n as u64);
    }

    pub fn put_be64(&mut self, n: u64)
        requires { Room self.old 8 }
        ensures put { Put self.old (digits 8 n) self.new }
        ensures value { self.new.at ≡ self.old.at + 8 }
    {
        self.put_be::<8>(n);
    }

    pub fn put_bytes(&mut self, src: &[u8])
        requires { Room self.old (length src.now) }
        ensures put { Put self.old src.now self.new }
        ensures value { self.new.at ≡ self.old.at + length src.now }
    {
        let end = self.at + src.len();
        let to = &mut self.out[self.at..end];
        // A loop: the library's `copy_from_slice` goes by `memmove`, a name that an archive for a host without a C library would then need too.
        for (i, b) in src.iter().enumerate() {
            to[i] = *b;
        }
        self.at = end;
    }
}

// A whole body that is at hand.
pub fn write_bytes(out: &mut [u8], src: &[u8]) -> Result<usize, NoSpace>
    ensures { Written out.old src.now out.new result }
{
    if out.len() < src.len() {
        return Err(NoSpace);
    }
    let mut w = Writer::new(out);
    w.put_bytes(src);
    Ok(w.position())
}
