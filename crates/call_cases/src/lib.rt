// Cases of either call, as a file has them: twenty bytes, a label, and the three texts, of which the call with the rulebook alone has one.
//
// The twenty bytes are the label's length, the lengths of rulebook, goals and certificate, and then a byte and five
// numbers that each program reads in its own way. The label's length and that byte are one byte, the fifth number is four,
// since a count of requests to the store does not fit two, all else two, high byte first.
#![tactic(auto)]

ghost use Rattle.std.specs.Prelude.{◌+◌, ◌*◌, ◌≡◌, ◌≤◌, get_or, length, IfOk, IfSome};
ghost use Rattle.std.specs.Iterator.{at_most};
ghost use Rattle.std.specs.Io.KnownBytes.{Consumes};
ghost use Rattle.call_cases.specs.Heads.{pair_at, four_at, head_from};
ghost use Rattle.call_cases.specs.Cases.{IsOf, texts_of, IsNext};

use std::io::Read;

#[derive(Clone, Copy)]
pub struct Head {
    pub label: u32,
    pub rulebook: u32,
    pub goals: u32,
    pub certificate: u32,
    pub own: u32,
    pub first: u32,
    pub second: u32,
    pub third: u32,
    pub fourth: u32,
    pub fifth: u32,
}

// The byte at a place, 0 where there is none.
fn byte(b: &[u8], i: usize) -> u8
    ensures { result ≡ get_or b.now i 0 }
{
    b.get(i).copied().unwrap_or(0)
}

// The number of one byte at a place.
fn one_at(b: &[u8], i: usize) -> u32
    ensures { result ≡ get_or b.now i 0 }
{
    u32::from(byte(b, i))
}

// The number of two bytes at two places. By hand, since 0 is read where there is no byte, as the model says; the library's conversion takes an array.
#[tactic(auto, unfolding(crate::specs::Heads::pair_at))]
fn two_at(b: &[u8], i: usize, j: usize) -> u32
    ensures { result ≡ pair_at b.now i j }
{
    one_at(b, i) * 256 + one_at(b, j)
}

// The number of four bytes at four places.
#[tactic(auto, unfolding(crate::specs::Heads::four_at, crate::specs::Heads::pair_at))]
fn four_at(b: &[u8], i: usize, j: usize, k: usize, l: usize) -> u32
    ensures { result ≡ four_at b.now i j k l }
{
    two_at(b, i, j) * 65536 + two_at(b, k, l)
}

// What the first bytes of a case say of it.
pub fn head_of(b: &[u8]) -> Head
    ensures { result ≡ head_from b.now }
{
    Head {
        label: one_at(b, 0),
        rulebook: two_at(b, 1, 2),
        goals: two_at(b, 3, 4),
        certificate: two_at(b, 5, 6),
        own: one_at(b, 7),
        first: two_at(b, 8, 9),
        second: two_at(b, 10, 11),
        third: two_at(b, 12, 13),
        fourth: two_at(b, 14, 15),
        fifth: four_at(b, 16, 17, 18, 19),
    }
}

// A case: its head, its label and its texts, all but the head as parts of what is lent.
#[derive(Clone, Copy)]
pub struct Case<'a> {
    pub head: Head,
    pub label: &'a [u8],
    pub rulebook: &'a [u8],
    pub goals: &'a [u8],
    pub certificate: &'a [u8],
}

// The case with which the bytes begin, and the bytes behind it; nothing where they are fewer than its head says.
fn first_case<'a>(bytes: &'a [u8]) -> Option<(Case<'a>, &'a [u8])>
    ensures { IfSome result (λ p. length p.1.now + 20 ≤ length bytes.now) }
{
    let (first, rest) = bytes.split_first_chunk::<20>()?;
    let head = head_of(first);
    let (label, rest) = rest.split_at_checked(head.label as usize)?;
    let (rulebook, rest) = rest.split_at_checked(head.rulebook as usize)?;
    let (goals, rest) = rest.split_at_checked(head.goals as usize)?;
    let (certificate, rest) = rest.split_at_checked(head.certificate as usize)?;
    Some((
        Case {
            head,
            label,
            rulebook,
            goals,
            certificate,
        },
        rest,
    ))
}

// A case has fewer bytes than its head says, or a text of it has more than its buffer.
#[derive(Clone, Copy)]
pub struct CutShort;

// The cases of a file, by its bytes. It moves on in place, as iterators do, so it is not copied.
#[derive(Drop)]
pub struct Cases<'a>(pub &'a [u8]);

impl<'a> Iterator for Cases<'a> {
    type Item = Result<Case<'a>, CutShort>;

    ghost remaining = { λ s. at_most (length s.0.now) };

    fn next(&mut self) -> Option<Result<Case<'a>, CutShort>> {
        if self.0.len() < 20 {
            return None;
        }
        match first_case(self.0) {
            Some((case, rest)) => {
                self.0 = rest;
                Some(Ok(case))
            }
            None => {
                self.0 = b"";
                Some(Err(CutShort))
            }
        }
    }
}

// What the label and the texts of a case are read into.
#[derive(Drop)]
pub struct Buffers<'a> {
    pub label: &'a mut [u8],
    pub rulebook: &'a mut [u8],
    pub goals: &'a mut [u8],
    pub certificate: &'a mut [u8],
}

// The next bytes of a file, so many as are said. Where they are more than the buffer has, nothing is read.
fn text<'a, F: Read>(file: &mut F, buffer: &'a mut [u8], bytes: u32) -> Result<&'a [u8], CutShort>
    ensures count { IfOk result (λ text. length text.now ≡ bytes) }
    ensures taken { IfOk result (λ text. Consumes (F.remaining file.old) (F.remaining file.new) text.now) }
{
    let room = buffer.get_mut(..bytes as usize).ok_or(CutShort)?;
    match reading::fill(file, room) {
        Ok(n) if n == room.len() => Ok(room),
        _ => Err(CutShort),
    }
}

// The label and the texts behind a head.
fn texts<'a, F: Read>(file: &mut F, head: Head, buffers: Buffers<'a>) -> Result<Case<'a>, CutShort>
    ensures head { IfOk result (λ case. case.head ≡ head) }
    ensures counts { IfOk result IsOf }
    ensures taken { IfOk result (λ case. Consumes (F.remaining file.old) (F.remaining file.new) (texts_of case)) }
{
    let label = text(file, buffers.label, head.label)?;
    let rulebook = text(file, buffers.rulebook, head.rulebook)?;
    let goals = text(file, buffers.goals, head.goals)?;
    let certificate = text(file, buffers.certificate, head.certificate)?;
    Ok(Case {
        head,
        label,
        rulebook,
        goals,
        certificate,
    })
}

// The next case of a file, or nothing at its end: what is handed out is what was read of it. A head that is cut short, or cannot be read, is the end.
// Behind a case that is cut short stands what was not read of it.
pub fn next_case<'a, F: Read>(
    file: &mut F,
    buffers: Buffers<'a>,
) -> Option<Result<Case<'a>, CutShort>>
    ensures counts { IfSome result (λ read. IfOk read IsOf) }
    ensures taken { IfSome result (λ read. IfOk read (IsNext (F.remaining file.old) (F.remaining file.new))) }
{
    let mut head = [0; 20];
    let Ok(20) = reading::fill(file, &mut head) else {
        return None;
    };
    Some(texts(file, head_of(&head), buffers))
}
