// A reader over a lent text: "On each read the reader moves on one token and is handed back."
#![tactic(auto)]

ghost use Rattle.std.specs.Prelude.{◌≡◌, suc, length, Some, None};
ghost use Rattle.lex.specs.Answers.{answer, found, after, token_at, scanned, peeked, taken, start};

use utf8::classes;

// "A token is an opening, a closing or an atom with its bounds." These are two numbers, here and wherever an atom's place counts, as the models have them.
#[derive(Clone, Copy)]
pub enum Token {
    Opening,
    Closing,
    Atom(usize, usize),
}

// Where the reader stands, up to where the text is tested, and the token that it looked at: "one token may be looked at ahead."
#[derive(Clone, Copy)]
pub struct Reader {
    pub at: usize,
    pub end: usize,
    pub ahead: Option<Token>,
}

// A token with the reader after it; the end of the text; a line that is not UTF-8. Three answers side by side: as a Result of an Option each read would
// be matched twice.
#[derive(Clone, Copy)]
pub enum Read {
    Got(Token, Reader),
    End,
    Bad,
}

// What is found at a place: a token, by where it ends and where its line does; the end of the text; a line that is not UTF-8. Neither a token
// nor a reader stands in it as a whole: an enum is copied by bytes, through memory, and such a copy waits for the words written just before.
#[derive(Clone, Copy)]
pub enum Scanned {
    Opening(usize, usize),
    Closing(usize, usize),
    Atom(usize, usize, usize),
    End,
    Bad,
}

// The token at a place where a character stands that is neither white nor `;`. Before the line's end an atom goes on behind its first character, which is
// known by then.
#[tactic(auto, using(crate::proofs::Answering::tokens, scanning::proofs::Going::kind_within), unfolding(crate::specs::Answers::found))]
fn token_at(text: &[u8], end: usize, p: usize) -> Scanned
    ensures { found result ≡ token_at text.now end p }
{
    let seen = utf8::look(text, p);
    let kind = seen.kind;
    let width = seen.width;
    if kind == classes::ORDINARY {
        if end <= p {
            return Scanned::Atom(p, p, end);
        }
        let q = scanning::atom_end(text, end, p + width);
        return Scanned::Atom(p, q, end);
    }
    if kind == classes::OPENS {
        return Scanned::Opening(p + width, end);
    }
    if kind == classes::CLOSES {
        return Scanned::Closing(p + width, end);
    }
    Scanned::Bad
}

// The next token; a line is tested when it is first needed. A turn goes over a line, as wide as it is, so that no `for` can count it.
#[tactic(auto, using(crate::proofs::Answering::scans), unfolding(crate::specs::Answers::found, crate::specs::Answers::scanned))]
fn scan(text: &[u8], end: usize, p: usize) -> Scanned
    ensures { found result ≡ scanned (suc (length text.now)) text.now end p }
{
    let mut e = end;
    let mut q = scanning::skip_blanks(text, e, p);
    while e <= q {
        if text.len() <= q {
            return Scanned::End;
        }
        let line = scanning::line_end(text, q);
        let Some(next) = line else {
            return Scanned::Bad;
        };
        e = next;
        q = scanning::skip_blanks(text, e, q);
    }
    token_at(text, e, q)
}

impl Reader {
    // A reader before the first token of any text.
    #[tactic(auto, unfolding(crate::specs::Answers::start))]
    pub fn new() -> Self
        ensures { result ≡ start }
    {
        Reader::bare(0, 0)
    }

    // A reader that has looked at nothing.
    pub fn bare(at: usize, end: usize) -> Self
        ensures { result ≡ after at end None }
    {
        Reader {
            at,
            end,
            ahead: None,
        }
    }

    // A reader that has looked at a token.
    fn holding(at: usize, end: usize, token: Token) -> Self
        ensures { result ≡ after at end (Some token) }
    {
        Reader {
            at,
            end,
            ahead: Some(token),
        }
    }

    // Looks at the next token: the reader that is handed back holds it.
    #[tactic(auto, using(crate::proofs::Answering::peeking), unfolding(crate::specs::Answers::answer, crate::specs::Answers::found))]
    pub fn peek(self, text: &[u8]) -> Read
        ensures { answer result ≡ peeked text.now self }
    {
        let ahead = self.ahead;
        if let Some(t) = ahead {
            return Read::Got(t, self);
        }
        let seen = scan(text, self.end, self.at);
        match seen {
            Scanned::Opening(p, e) => Read::Got(
                Token::Opening,
                Reader::holding(p, e, Token::Opening),
            ),
            Scanned::Closing(p, e) => Read::Got(
                Token::Closing,
                Reader::holding(p, e, Token::Closing),
            ),
            Scanned::Atom(s, t, e) => {
                Read::Got(Token::Atom(s, t), Reader::holding(t, e, Token::Atom(s, t)))
            }
            Scanned::End => Read::End,
            Scanned::Bad => Read::Bad,
        }
    }

    // Takes the next token.
    #[tactic(auto, unfolding(crate::specs::Answers::answer, crate::specs::Answers::found, crate::specs::Answers::taken, crate::specs::Answers::taken_by))]
    pub fn token(self, text: &[u8]) -> Read
        ensures { answer result ≡ taken text.now self }
    {
        let ahead = self.ahead;
        if let Some(t) = ahead {
            return Read::Got(t, Reader::bare(self.at, self.end));
        }
        let scanned = scan(text, self.end, self.at);
        match scanned {
            Scanned::Opening(p, e) => Read::Got(Token::Opening, Reader::bare(p, e)),
            Scanned::Closing(p, e) => Read::Got(Token::Closing, Reader::bare(p, e)),
            Scanned::Atom(s, t, e) => Read::Got(Token::Atom(s, t), Reader::bare(t, e)),
            Scanned::End => Read::End,
            Scanned::Bad => Read::Bad,
        }
    }
}
