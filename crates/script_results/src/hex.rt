// Hexadecimal text, written in lower case.
ghost use Rattle.std.specs.Prelude.{◌≡◌, ◌*◌, ◌<◌, length};
ghost use Rattle.io.specs.Digits.{hex_digit_ascii as glyph_of};
ghost use Rattle.octets.specs.Output.{Room, Put};
ghost use Rattle.script_results.specs.Hex.{hex_text};
ghost use Rattle.script_results.specs.Output.{WrittenAt};

use octets::{NoSpace, Writer};

fn glyph(d: u8) -> u8
    requires { d < 16 }
    ensures { result ≡ glyph_of d }
{
    if d < 10 { b'0' + d } else { b'a' + (d - 10) }
}

fn put_hex(w: &mut Writer, s: &[u8])
    requires { Room w.old (2 * length s.now) }
    ensures { Put w.old (hex_text s.now) w.new }
{
    for b in s {
        w.put_u8(glyph(b / 16));
        w.put_u8(glyph(b % 16));
    }
}

// The bytes of s as digits, from `at` on. A long body goes out in parts, one after the other.
pub fn write_hex(out: &mut [u8], at: usize, s: &[u8]) -> Result<usize, NoSpace>
    ensures { WrittenAt out.old at (hex_text s.now) out.new result }
{
    if out.len() < at {
        return Err(NoSpace);
    }
    if (out.len() - at) / 2 < s.len() {
        return Err(NoSpace);
    }
    let mut w = Writer::starting_at(out, at);
    put_hex(&mut w, s);
    Ok(w.position())
}
