ghost use Rattle.std.specs.Prelude.{◌≤◌, length};

use std::io::Read;

// Fills the buffer from its start as far as a file goes whose reads may fail, and answers how many bytes were read: up to its end, or up to the
// first read that fails, of which nothing is said.
pub fn fill_so_far<F: Read>(file: &mut F, buffer: &mut [u8]) -> usize
    ensures { result ≤ length buffer.new }
{
    let mut done = 0;
    // No index is counted here: a read may give any number of bytes.
    while done < buffer.len() {
        match file.read(&mut buffer[done..]) {
            Ok(0) | Err(_) => return done,
            Ok(n) => done += n,
        }
    }
    done
}
