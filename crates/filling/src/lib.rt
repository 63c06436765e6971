// A lent buffer, filled as far as a reader goes.
#![tactic(auto)]

ghost use Rattle.std.specs.Prelude.{◌≤◌, length};

use std::io::Read;

// How many bytes were read, until the buffer is full or the reader ends. It ends where a read fails. No method of std
// fills a buffer as far as it goes and says how far that is.
pub fn fill_from(reader: &mut impl Read, buffer: &mut [u8]) -> usize
    ensures { result ≤ length buffer.new }
{
    let mut n = 0;
    while n < buffer.len() {
        let got = reader.read(&mut buffer[n..]).unwrap_or(0);
        if got == 0 {
            break;
        }
        n += got;
    }
    n
}
