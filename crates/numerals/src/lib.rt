// "A number is an optional `+`, then one or more ASCII digits, below 2 to the 64."
#![tactic(auto)]

ghost use Rattle.std.specs.Prelude.{◌≡◌};
ghost use Rattle.horn.specs.Checker as definition;
ghost use Rattle.words.specs.Parts.{part};
ghost use Rattle.numerals.specs.Numbers.{read, saturated};

// The number of a text that is digits alone, of which there must be one. A number of 2 to the 64 or more is none, whatever follows.
#[tactic(auto, using(crate::proofs::Turns::turns))]
fn digits(text: &[u8]) -> Option<u64>
    ensures { read result ≡ definition.digits text.now }
{
    if text.is_empty() {
        return None;
    }
    let mut n: u64 = 0;
    for &b in text {
        if !b.is_ascii_digit() {
            return None;
        }
        n = n.checked_mul(10)?.checked_add(u64::from(b) - 0x30)?;
    }
    Some(n)
}

// The number that an atom of a text is; None for an atom that is none, which is refusal 18.
#[tactic(auto, using(crate::proofs::Turns::signs))]
pub fn numeral(text: &[u8], s: usize, t: usize) -> Option<u64>
    ensures { read result ≡ definition.numeral (part s t text.now) }
{
    let name = words::part(text, s, t);
    match name.strip_prefix(b"+") {
        Some(unsigned) => digits(unsigned),
        None => digits(name),
    }
}

// A number as a word, for what is kept of a reference: one that no step has stays one that no step has.
#[tactic(auto, using(crate::proofs::Turns::saturating))]
pub fn saturate(n: u64) -> u32
    ensures { result ≡ saturated n }
{
    u32::try_from(n).unwrap_or(u32::MAX)
}
