// What the program prints of calls and answers.
use checking::call::Step;
use checking::rule::Rule;
use mill::fittings::name;
use mill::printing::{Lines, Named};
use refusals::Refusal;
use std::{fmt, io};

// A part by its number and its name.
#[derive(Clone, Copy)]
struct Numbered(u8);

impl fmt::Display for Numbered {
    fn fmt<W: fmt::Write>(&self, f: &mut fmt::Formatter<W>) -> fmt::Result {
        write!(f, "{} {}", self.0, name(self.0))
    }
}

// A rule by its kind, heads, needs and absences.
#[derive(Clone, Copy)]
struct Terms(Rule);

impl fmt::Display for Terms {
    fn fmt<W: fmt::Write>(&self, f: &mut fmt::Formatter<W>) -> fmt::Result {
        let rule = self.0;
        write!(
            f,
            "of kind {}, heads:{}, needs:{}, absences:{}",
            u8::from(rule.kind),
            Named(rule.heads),
            Named(rule.needs),
            Named(rule.absences)
        )
    }
}

// A step, told as it is called.
#[derive(Clone, Copy)]
pub(crate) struct Told(pub(crate) Step);

impl fmt::Display for Told {
    fn fmt<W: fmt::Write>(&self, f: &mut fmt::Formatter<W>) -> fmt::Result {
        match self.0 {
            Step::Add(rule) => write!(f, "add a rule {}", Terms(rule)),
            Step::Strike(place) => write!(f, "strike {place}"),
            Step::Want(part) => write!(f, "want {}", Numbered(part)),
            Step::Bar(part) => write!(f, "bar {}", Numbered(part)),
            Step::Release(part) => write!(f, "release {}", Numbered(part)),
        }
    }
}

pub(crate) fn refusal(rt: &HostRuntime, refusal: Refusal) -> io::Result<()> {
    println!(rt; "  refused {refusal}")
}

// Worded by this program; the lines are printed alike in both.
pub(crate) fn justification(rt: &HostRuntime, bytes: &[u8], parts: usize) -> io::Result<()> {
    println!(rt; "  passed, {parts} parts")?;
    let lines = Lines {
        margin: "  ",
        bytes,
        parts,
    };
    print!(rt; "{lines}")
}
