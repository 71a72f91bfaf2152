// A lent buffer before and after a call that writes: bytes that no text has, and the test that all but the written ones are there still.
#![tactic(auto)]

ghost use Rattle.std.specs.Prelude.{◌≡◌, length};
ghost use Rattle.buffers.specs.Filling.{unwritten, filled, due, buffer_held};

use answers::{Answer, Fault};

// The byte at a place before a call: one of F5 to FF, which UTF-8 has not.
#[tactic(auto, unfolding(crate::specs::Filling::unwritten))]
fn byte_before(i: usize) -> u8
    ensures { result ≡ unwritten i }
{
    (i % 11) as u8 + 0xF5
}

// Puts these bytes everywhere. Beside `areas::fill` it says why the two are not one generic function, and why both go by an index.
#[tactic(auto, using(crate::proofs::Turns::fills))]
pub fn fill(out: &mut [u8])
    ensures { out.new ≡ filled (length out.old) 0 out.old }
{
    for i in 0..out.len() {
        out[i] = byte_before(i);
    }
}

// The byte due at place i, where a text was written from another place on.
#[tactic(auto, unfolding(crate::specs::Filling::due))]
fn byte_due(i: usize, from: usize, text: &[u8]) -> u8
    ensures { result ≡ due i from text.now }
{
    if i < from {
        return byte_before(i);
    }
    if i - from < text.len() {
        return text[i - from];
    }
    byte_before(i)
}

// Whether the text stands from that place on and every other byte is as `fill` left it. Not one with `areas::holds`, for the same reason as `fill`.
#[tactic(auto, using(crate::proofs::Turns::holds), unfolding(crate::specs::Filling::buffer_held))]
pub fn holds(out: &[u8], from: usize, text: &[u8]) -> bool
    ensures { result ≡ buffer_held from text.now out.now }
{
    for (i, &byte) in out.iter().enumerate() {
        if byte != byte_due(i, from, text) {
            return false;
        }
    }
    true
}

// What came of a call that writes; a fault too where it has not written this text, or another length, or another byte of the buffer.
pub fn with_buffer(
    seen: Result<Answer, Fault>,
    out: &[u8],
    from: usize,
    text: &[u8],
) -> Result<Answer, Fault> {
    let length = answers::written(seen).counts[0] as usize;
    if length == text.len() && holds(out, from, text) {
        return seen;
    }
    match seen {
        Ok(answer) => Err(Fault::Buffer(answer)),
        Err(Fault::Areas(answer)) => Err(Fault::Both(answer)),
        Err(fault) => Err(fault),
    }
}
