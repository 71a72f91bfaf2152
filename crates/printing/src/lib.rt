// Printing that goes on where a write fails: a program that says what it has found ends as it was found, whether or not all of it could be written.
#![tactic(auto)]

ghost use Rattle.std.specs.Prelude.{OnErr};

use std::fmt::{Display, Write};
use std::{fmt, io};

// Writes what another prints to, and says of each write that it was done. What cannot be written is left out, and what comes behind it is tried again.
#[derive(Clone, Copy)]
pub struct GoingOn<'a, R>(pub &'a R);

// Each piece of a text by itself, so that those behind one that is not written are tried.
#[derive(Drop)]
struct Pieces<'a, R>(&'a R);

impl<R: Print> Write for Pieces<'_, R> {
    fn write_str(&mut self, piece: &str) -> fmt::Result {
        let _ = self.0.write_all(piece.as_bytes());
        Ok(())
    }
}

impl<R: Print> Print for GoingOn<'_, R> {
    fn print<D: Display + Drop>(&self, value: D) -> io::Result<()>
        ensures { OnErr result ⊥ }
    {
        let _ = Pieces(self.0).write_fmt(value);
        Ok(())
    }

    fn println<D: Display + Drop>(&self, value: D) -> io::Result<()>
        ensures { OnErr result ⊥ }
    {
        let _ = Pieces(self.0).write_fmt(value);
        self.write_all(b"\n")
    }

    fn write_all(&self, bytes: &[u8]) -> io::Result<()>
        ensures { OnErr result ⊥ }
    {
        let _ = self.0.write_all(bytes);
        Ok(())
    }
}
