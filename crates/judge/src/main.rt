// Judges three outfits of a small tide mill, and prints for each the verdict and, where it is valid, each part's name, round and rule.
#![tactic(auto)]

use checking::book::typed::TypedBook;
use checking::checker::{ROOM, judge};
use mill::fittings::{AXIAL, BRAKE, CROSS, FLOATGATE, GEARBOX, LIFTGATE, MILL, name};
use mill::printing::{Lines, Named};
use mill::rules::book;
use refusals::Refusal;
use sets::parts::{Bits, Parts};
use std::io;

const OUTFITS: [Bits; 3] = [
    MILL | CROSS | LIFTGATE | GEARBOX,
    MILL | CROSS | FLOATGATE | GEARBOX,
    MILL | AXIAL | LIFTGATE | BRAKE | GEARBOX,
];

// Each kind of refusal in words of its own: this program's output.
fn print_refusal(rt: &HostRuntime, refusal: Refusal) -> io::Result<()> {
    let (number, _) = refusal.code();
    match refusal {
        Refusal::NoneChosen { rule }
        | Refusal::SeveralChosen { rule }
        | Refusal::Incompatible { rule } => println!(rt; "refused {number} at rule {rule}"),
        Refusal::NoRound { part } => {
            println!(rt; "refused {number} at part {part}, {}", name(part))
        }
        _ => println!(rt; "refused {refusal}"),
    }
}

// Worded by this program; the lines are printed alike in both.
fn print_justification(rt: &HostRuntime, bytes: &[u8], parts: usize) -> io::Result<()> {
    println!(rt; "valid, {parts} parts")?;
    let lines = Lines {
        margin: "",
        bytes,
        parts,
    };
    print!(rt; "{lines}")
}

fn print_verdict(rt: &HostRuntime, book: &TypedBook, outfit: Bits) -> io::Result<()> {
    println!(rt; "outfit{}", Named(Parts::from_bits(outfit)))?;
    let mut buffer = [0; ROOM];
    match judge(book, outfit, &mut buffer) {
        Ok(parts) => print_justification(rt, &buffer, parts),
        Err(refusal) => print_refusal(rt, refusal),
    }
}

fn main(rt: HostRuntime) -> io::Result<()> {
    let book = book();
    for outfit in OUTFITS {
        print_verdict(&rt, &book, outfit)?;
    }
    Ok(())
}
