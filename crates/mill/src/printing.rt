// How sets of parts and justifications are printed.
ghost use Rattle.std.specs.Prelude.{Some};
ghost use Rattle.mill.specs.Printing.{parts_text, lines_text};

use crate::fittings::name;
use sets::parts::Parts;
use std::fmt;

/// The parts of a set by name, in ascending number, each after a space.
#[derive(Clone, Copy)]
pub struct Named(pub Parts);

impl fmt::Display for Named {
    ghost output = { λ named. Some (parts_text named.0) };

    fn fmt<W: fmt::Write>(&self, f: &mut fmt::Formatter<W>) -> fmt::Result {
        for part in self.0 {
            write!(f, " {}", name(part))?;
        }
        Ok(())
    }
}

// The number of parts is what a judge answers beside the buffer; to cut the buffer to it, each program would have to prove that it fits.

/// The justification of so many parts, from the front of a buffer: for each a line, after a margin, of its name, round and rule.
#[derive(Clone, Copy)]
pub struct Lines<'a> {
    pub margin: &'static str,
    pub bytes: &'a [u8],
    pub parts: usize,
}

impl fmt::Display for Lines<'_> {
    ghost output = { λ lines. Some (lines_text lines.margin.now lines.bytes.now lines.parts) };

    fn fmt<W: fmt::Write>(&self, f: &mut fmt::Formatter<W>) -> fmt::Result {
        for entry in self.bytes.chunks_exact(3).take(self.parts) {
            if let [part, round, rule] = entry {
                writeln!(f, "{}{} {round} {rule}", self.margin, name(*part))?;
            }
        }
        Ok(())
    }
}
