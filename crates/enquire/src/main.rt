// An enquiry about a small tide mill: makes a list of calls on it and prints each with its answer, then what the enquiry holds; and the same
// list made at once on an enquiry by another measure.
#![tactic(auto)]

use crate::printing::Told;
use crate::script::{BRAKED, calls};
use checking::book::Book;
use checking::call::Call;
use checking::checker::ROOM;
use checking::enquiry::{Enquiry, run};
use measures::head_sheet::HeadSheet;
use measures::measure::Measure;
use measures::price_sheet::PriceSheet;
use measures::value::value_of;
use mill::printing::Named;
use mill::rules::book;
use mill::sheets::{heads, prices};
use sets::parts::{Bits, Parts};
use std::io;

mod printing;
mod script;

fn print_check<B: Book, M: Measure>(
    rt: &HostRuntime,
    enquiry: &Enquiry<B, M>,
    outfit: Bits,
    room: usize,
) -> io::Result<()> {
    println!(rt;
        "check{} with {room} bytes",
        Named(Parts::from_bits(outfit))
    )?;
    let mut buffer = [0; ROOM];
    match enquiry.check(outfit, &mut buffer[0..room.min(ROOM)]) {
        Ok(parts) => printing::justification(rt, &buffer, parts),
        Err(refusal) => printing::refusal(rt, refusal),
    }
}

// Makes a call, and prints it with its answer. Calls are data, as the script has them, and not closures.
fn make<B: Book, M: Measure>(
    rt: &HostRuntime,
    enquiry: &mut Enquiry<B, M>,
    call: Call,
) -> io::Result<()> {
    match call {
        Call::Make(step) => {
            println!(rt; "{}", Told(step))?;
            match enquiry.step(step) {
                Ok(()) => println!(rt; "  done"),
                Err(refusal) => printing::refusal(rt, refusal),
            }
        }
        Call::Check { outfit, room } => print_check(rt, enquiry, outfit, room),
        Call::Offer => Ok(()),
    }
}

// What an enquiry holds besides its book and its measure.
fn print_held<B: Book, M: Measure>(rt: &HostRuntime, enquiry: &Enquiry<B, M>) -> io::Result<()> {
    println!(rt;
        "own rules: {}; wanted:{}; barred:{}",
        enquiry.own().len(),
        Named(enquiry.wanted()),
        Named(enquiry.barred())
    )
}

fn by_price(rt: &HostRuntime, calls: &[Call]) -> io::Result<()> {
    println!(rt; "by price")?;
    let mut enquiry = Enquiry::open(book(), prices());
    for call in calls {
        make(rt, &mut enquiry, *call)?;
    }
    print_held(rt, &enquiry)?;
    let pence = value_of(enquiry.measure(), Parts::from_bits(BRAKED));
    println!(rt; "price {pence} pence")
}

fn by_head(rt: &HostRuntime, calls: &[Call]) -> io::Result<()> {
    println!(rt; "by head, all calls at once")?;
    let enquiry = run(book(), heads(), calls);
    print_held(rt, &enquiry)?;
    print_check(rt, &enquiry, BRAKED, ROOM)?;
    let metres = value_of(enquiry.measure(), Parts::from_bits(BRAKED)).metres();
    println!(rt; "head {metres} metres")
}

fn main(rt: HostRuntime) -> io::Result<()> {
    let calls = match calls() {
        Ok(calls) => calls,
        Err(refusal) => return printing::refusal(&rt, refusal),
    };
    by_price(&rt, &calls)?;
    by_head(&rt, &calls)
}
