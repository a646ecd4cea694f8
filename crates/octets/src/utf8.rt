// UTF-8, by RFC 3629.
ghost use Rattle.std.specs.Prelude.{◌≡◌, true};
ghost use Rattle.octets.specs.Utf8.{utf8};

// Whether s is a few bytes below 80, as most names are. To look at them takes less time than a call of the library's test.
fn is_short_ascii(s: &[u8]) -> bool
    ensures { result ≡ true → utf8 s.now ≡ true }
{
    s.len() < 8 && s.iter().all(|b| *b < 0x80)
}

// Not inlined, since within the reader of a name it takes twice as long for a short one.
#[inline(never)]
fn by_library(s: &[u8]) -> bool
    ensures { result ≡ utf8 s.now }
{
    std::str::from_utf8(s).is_ok()
}

pub fn is_utf8(s: &[u8]) -> bool
    ensures { result ≡ utf8 s.now }
{
    is_short_ascii(s) || by_library(s)
}
