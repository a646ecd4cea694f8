// Texts of at most 255 bytes.
ghost use Rattle.std.specs.Prelude.{◌≡◌, ◌≤◌};
ghost use Rattle.requests.specs.Texts.{stored, fits as fits_of, text_of, text_sound};

// The text is the first `len` of the bytes. They lie in an array, since no heap is used; a struct, as a record may hold
// a length over 255, which refusal 13 meets.
#[derive(Debug, PartialEq, Eq, Clone, Copy)]
pub struct Text {
    pub len: usize,
    pub bytes: [u8; 255],
}

// Whether a caller's text may be taken: it has at most 255 bytes and is UTF-8.
pub fn fits(s: &[u8]) -> bool
    ensures { result ≡ fits_of s.now }
{
    s.len() <= 255 && octets::is_utf8(s)
}

// The first 255 bytes of s, with zeros after them where it is shorter.
fn padded(s: &[u8]) -> [u8; 255]
    ensures { result ≡ (stored s.now).bytes }
{
    let mut out = [0; 255];
    let n = s.len().min(255);
    out[..n].copy_from_slice(&s[..n]);
    out
}

impl Text {
    // The record of s. One that is longer than 255 bytes keeps its length, and is not sound.
    pub fn new(s: &[u8]) -> Text
        ensures { result ≡ stored s.now }
    {
        Text {
            len: s.len(),
            bytes: padded(s),
        }
    }

    // The text; of a record whose length is over 255, all its bytes.
    pub fn as_slice(&self) -> &[u8]
        ensures { result.now ≡ text_of self.now }
    {
        octets::part(&self.bytes, 0, self.len)
    }

    // Whether it is a text that opening accepts.
    pub fn sound(&self) -> bool
        ensures { result ≡ text_sound self.now }
    {
        self.len <= 255 && octets::is_utf8(self.as_slice())
    }
}
