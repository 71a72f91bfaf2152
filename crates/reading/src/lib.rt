// What is read of an open file into a lent buffer. No contract can say which bytes a file holds; a reader over memory says it.
#![tactic(auto)]

ghost use Rattle.std.specs.Prelude.{◌<◌, IfOk, length, take};
ghost use Rattle.std.specs.Io.{ReadsAtMost};
ghost use Rattle.std.specs.Io.KnownBytes.{Consumes, IsAtEnd};

mod so_far;

pub use so_far::fill_so_far;
use std::io;
use std::io::Read;

// Fills the buffer from its start, and answers how many bytes were read: as many as it has, or fewer where the file has come to its end.
pub fn fill<F: Read>(file: &mut F, buffer: &mut [u8]) -> io::Result<usize>
    ensures within { ReadsAtMost result buffer.new }
    ensures bytes { IfOk result (λ n. Consumes (F.remaining file.old) (F.remaining file.new) (take n buffer.new)) }
    ensures end { IfOk result (λ n. n < length buffer.new → IsAtEnd (F.remaining file.new)) }
{
    let mut done = 0;
    // No index is counted here: a read may give any number of bytes.
    while done < buffer.len() {
        let n = file.read(&mut buffer[done..])?;
        if n == 0 {
            return Ok(done);
        }
        done += n;
    }
    Ok(done)
}
