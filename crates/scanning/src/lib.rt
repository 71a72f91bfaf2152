// Where the parts of a line end: white space and comments, an atom, the line itself. No loop counts an index: a character is one to four bytes wide.
// The three stay apart, since each ends in its own way (a comment runs to its line's end, an atom goes by three bytes where it can, a line is tested):
// one loop over a closure would have the cases of all.
#![tactic(auto)]

ghost use Rattle.std.specs.Prelude.{◌≡◌, suc, length};
ghost use Rattle.scanning.specs.Scan.{stopped, blanks, atom_end, line_end};

use utf8::classes;

// Where white space ends at a character of another kind: a comment runs to the end of its line.
#[tactic(auto, unfolding(crate::specs::Scan::stopped))]
fn stop(kind: u8, end: usize, q: usize) -> usize
    ensures { result ≡ stopped kind end q }
{
    if kind == classes::COMMENTS {
        return end;
    }
    q
}

// Past white space and comments in a line that ends at `end`.
#[tactic(auto, using(crate::proofs::Going::blankness, utf8::proofs::Looks::looks), unfolding(utf8::specs::Characters::width, utf8::specs::Characters::kind_at))]
pub fn skip_blanks(text: &[u8], end: usize, p: usize) -> usize
    ensures { result ≡ blanks (suc (length text.now)) text.now end p }
{
    let mut q = p;
    while q < end {
        if text.len() <= q {
            return q;
        }
        let c = classes::class(text[q]);
        if c == classes::WHITE {
            q += 1;
            continue;
        }
        if c == classes::COMMENTS {
            return end;
        }
        if c < classes::NEVER {
            return q;
        }
        let seen = utf8::look_longer(text, q, c);
        let kind = seen.kind;
        if kind != classes::WHITE {
            return stop(kind, end, q);
        }
        q += seen.width;
    }
    q
}

// Past the characters of an atom.
#[tactic(auto, using(crate::proofs::Going::atoms, utf8::proofs::Looks::looks), unfolding(utf8::specs::Characters::width, utf8::specs::Characters::kind_at))]
pub fn atom_end(text: &[u8], end: usize, p: usize) -> usize
    ensures { result ≡ atom_end (suc (length text.now)) text.now end p }
{
    let mut q = p;
    while q < end {
        if text.len() <= q {
            return q;
        }
        let c = classes::class(text[q]);
        if c == classes::ORDINARY {
            q += 1;
            continue;
        }
        if c < classes::NEVER {
            return q;
        }
        let plain = utf8::plain_three(&text[q..], c);
        if utf8::LAST_WHITE < plain {
            q += 3;
            continue;
        }
        let seen = utf8::look_longer(text, q, c);
        let kind = seen.kind;
        if kind != classes::ORDINARY {
            return q;
        }
        q += seen.width;
    }
    q
}

// The end of the line that starts at `p`, if it is UTF-8.
#[tactic(auto, using(crate::proofs::Going::lines, utf8::proofs::Looks::ascii_width, utf8::proofs::Looks::rest_of, utf8::proofs::Plain::plain_wide))]
pub fn line_end(text: &[u8], p: usize) -> Option<usize>
    ensures { result ≡ line_end (suc (length text.now)) text.now p }
{
    let mut q = p;
    while q < text.len() {
        let b = text[q];
        if b == 0x0A {
            return Some(q + 1);
        }
        if b < 0x80 {
            q += 1;
            continue;
        }
        let plain = utf8::plain_three(&text[q..], classes::class(b));
        if 0 < plain {
            q += 3;
            continue;
        }
        let found = utf8::first_of(&text[q..]);
        let width = found.width;
        if width == 0 {
            return None;
        }
        q += width;
    }
    Some(q)
}
