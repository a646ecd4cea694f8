// The input, read whole.
ghost use Rattle.std.specs.Prelude.{◌≤◌, length};

use std::io::Read;

// Reads until space is full, the input ends or a read fails: the bytes that came.
pub fn read_full<'a, R: Read>(from: &mut R, space: &'a mut [u8]) -> &'a [u8]
    ensures { length result.now ≤ length space.old }
{
    let mut done = 0;
    while done < space.len() {
        match from.read(&mut space[done..]) {
            Ok(0) | Err(_) => break,
            Ok(n) => done += n,
        }
    }
    &space[..done]
}
