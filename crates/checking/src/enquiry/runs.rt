// A list of calls on a newly opened enquiry.
ghost use Rattle.checking.specs.Calls.{called, CallLaws};
ghost use Rattle.checking.specs.Enquiries.{state_of, Holding, Stepped, Reached};

use crate::book::Book;
use crate::call::{Call, Step};
use crate::checker::ROOM;
use crate::enquiry::Enquiry;
use measures::measure::Measure;
use refusals::Refusal;

impl<B: Book, M: Measure> Enquiry<B, M> {
    // Steps and calls are data, which the definition of what a list of calls gives reads too: cases of an enum, and not closures.

    /// Makes a step.
    pub fn step(&mut self, step: Step) -> Result<(), Refusal>
        ensures { Stepped step self.old self.new result }
    {
        match step {
            Step::Add(rule) => self.add(rule),
            Step::Strike(place) => self.strike(place),
            Step::Want(part) => self.want(part),
            Step::Bar(part) => self.bar(part),
            Step::Release(part) => self.release(part),
        }
    }

    // Makes a call, and lets its answer go. A buffer of more than the least room gets the same answer as one of just that room.
    fn call(&mut self, call: Call)
        ensures { Holding self.old.book self.old.measure (called (state_of self.old) call) self.new }
    {
        match call {
            Call::Make(step) => {
                let _ = self.step(step);
            }
            Call::Check { outfit, room } => {
                let mut buffer = [0; ROOM];
                let _ = self.check(outfit, &mut buffer[0..room.min(ROOM)]);
            }
            Call::Offer => {}
        }
    }
}

/// Opens an enquiry over a book and a measure, makes the calls one after another, and gives the enquiry back: it holds what the list of
/// calls gives. Offers are passed over: this library makes none, and an offer changes nothing.
pub fn run<B: Book, M: Measure>(book: B, measure: M, calls: &[Call]) -> Enquiry<B, M>
    ensures reached { Reached book measure calls.now result }
    ensures laws { CallLaws }
{
    let mut enquiry = Enquiry::open(book, measure);
    for call in calls {
        enquiry.call(*call);
    }
    enquiry
}
