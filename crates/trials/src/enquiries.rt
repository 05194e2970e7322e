// Enquiries: the limits of their steps, what is in force, the order of refusals, and calls in blind order.
use crate::answers::{Code, answered};
use checking::book::MOST_RULES;
use checking::book::own::MOST_OWN;
use checking::book::typed::TypedBook;
use checking::call::{Call, Step};
use checking::checker::ROOM;
use checking::enquiry::{Enquiry, run};
use checking::rule::Rule;
use measures::price_sheet::PriceSheet;
use refusals::Refusal;
use sets::parts::{Bits, PARTS};
use std::process::Abort;
use std::test::Fail;

type Priced = Enquiry<TypedBook, PriceSheet>;

fn empty() -> Priced {
    Enquiry::open(TypedBook::open(), PriceSheet::new())
}

fn checked(rt: &impl Abort, enquiry: &Priced, outfit: Bits) -> Result<usize, Code> {
    answered(rt, |buffer| enquiry.check(outfit, buffer))
}

// Done, or the number and place of the refusal.
type Answer = Result<(), Code>;

fn done(answer: Result<(), Refusal>) -> Answer {
    answer.map_err(Refusal::code)
}

#[test]
fn own_rules(rt: HostRuntime) -> Result<(), Fail> {
    let mut enquiry = empty();
    assert_eq!(rt; done(enquiry.strike(0)), Err((24, 0)));
    for place in 0..MOST_OWN {
        enquiry.add(Rule::from_numbers(0, 1 << place, 0, 0)?)?;
    }
    assert_eq!(rt;
        done(enquiry.add(Rule::from_numbers(0, 1, 0, 0)?)),
        Err((23, 16))
    );
    assert_eq!(rt; done(enquiry.strike(16)), Err((24, 16)));
    assert_eq!(rt; done(enquiry.strike(usize::MAX)), Err((24, usize::MAX)));
    assert_eq!(rt; checked(&rt, &enquiry, 0xFFFF), Ok(16));
    assert_eq!(rt; done(enquiry.strike(15)), Ok(()));
    assert_eq!(rt; done(enquiry.strike(3)), Ok(()));
    assert_eq!(rt; enquiry.own().len(), 14);
    assert_eq!(rt; checked(&rt, &enquiry, 0x7FF7), Ok(14));
    assert_eq!(rt; checked(&rt, &enquiry, 0x3FF7), Err((52, 13)));
    Ok(())
}

#[test]
fn wishes(rt: HostRuntime) {
    let mut enquiry = empty();
    for part in [64, 255] {
        let place = usize::from(part);
        assert_eq!(rt; done(enquiry.want(part)), Err((41, place)));
        assert_eq!(rt; done(enquiry.bar(part)), Err((41, place)));
        assert_eq!(rt; done(enquiry.release(part)), Err((41, place)));
    }
    assert_eq!(rt; done(enquiry.want(63)), Ok(()));
    assert_eq!(rt; done(enquiry.want(63)), Ok(()));
    assert_eq!(rt; done(enquiry.bar(63)), Err((42, 63)));
    assert_eq!(rt; done(enquiry.bar(0)), Ok(()));
    assert_eq!(rt; done(enquiry.want(0)), Err((42, 0)));
    assert_eq!(rt; enquiry.wanted().to_bits(), 1 << 63);
    assert_eq!(rt; enquiry.barred().to_bits(), 1);
    assert_eq!(rt; done(enquiry.release(63)), Ok(()));
    assert_eq!(rt; done(enquiry.release(0)), Ok(()));
    assert_eq!(rt; done(enquiry.bar(63)), Ok(()));
    assert_eq!(rt; enquiry.wanted().to_bits(), 0);
    assert_eq!(rt; enquiry.barred().to_bits(), 1 << 63);
}

// no rules: a wanted part does not justify itself; then a <- as an own rule: a missing part before a present one
#[test]
fn refusals_in_order(rt: HostRuntime) -> Result<(), Fail> {
    let mut enquiry = empty();
    enquiry.want(0)?;
    assert_eq!(rt; checked(&rt, &enquiry, 1), Err((55, 0)));
    assert_eq!(rt; checked(&rt, &enquiry, 0), Err((56, 0)));
    assert_eq!(rt; checked(&rt, &enquiry, 2), Err((55, 1)));
    enquiry.add(Rule::from_numbers(0, 1, 0, 0)?)?;
    assert_eq!(rt; checked(&rt, &enquiry, 1), Ok(1));
    assert_eq!(rt; checked(&rt, &enquiry, 0), Err((52, 0)));
    enquiry.release(0)?;
    enquiry.bar(0)?;
    assert_eq!(rt; checked(&rt, &enquiry, 1), Err((57, 0)));
    enquiry.want(1)?;
    assert_eq!(rt; checked(&rt, &enquiry, 1), Err((56, 1)));
    let mut short = [255; 191];
    assert_eq!(rt; enquiry.check(1, &mut short), Err(Refusal::ShortBuffer));
    assert!(rt; short == [255; 191]);
    Ok(())
}

// 240 rules that ask for the absence of part 63, and 16 own rules, of which the last is b <-
#[test]
fn highest_rule(rt: HostRuntime) -> Result<(), Fail> {
    let never = Rule::from_numbers(0, 0, 1 << 63, 0)?;
    let mut book = TypedBook::open();
    for _ in 0..MOST_RULES {
        book.enter(never)?;
    }
    let mut enquiry = Enquiry::open(book, PriceSheet::new());
    for _ in 0..MOST_OWN - 1 {
        enquiry.add(never)?;
    }
    enquiry.add(Rule::from_numbers(0, 2, 0, 0)?)?;
    assert_eq!(rt; checked(&rt, &enquiry, 0), Err((52, 255)));
    assert_eq!(rt; checked(&rt, &enquiry, 1 << 63), Err((54, 0)));
    let mut buffer = [255; ROOM];
    assert_eq!(rt; enquiry.check(2, &mut buffer), Ok(1));
    assert!(rt; buffer[..4] == [1, 1, 255, 255]);
    Ok(())
}

// What is wished of a part.
#[derive(Clone, Copy, PartialEq, Eq)]
enum Wish {
    Free,
    Wanted,
    Barred,
}

// What an enquiry should hold: each own rule by its one head, and the wish for each part.
#[derive(Drop)]
struct Model {
    own: Vec<u8>,
    wishes: [Wish; 256],
}

impl Model {
    // Makes a step, of which a rule has this one head, and answers as an enquiry should. Steps are data, as the calls that are tried have them.
    fn step(&mut self, step: Step, head: u8) -> Result<Answer, Fail> {
        Ok(match step {
            Step::Add(_) if self.own.len() >= 16 => Err((23, 16)),
            Step::Add(_) => {
                self.own.push(head)?;
                Ok(())
            }
            Step::Strike(place) if place >= self.own.len() => Err((24, place)),
            Step::Strike(place) => {
                self.own.remove(place);
                Ok(())
            }
            Step::Want(part) => self.wish(part, Wish::Wanted, Some(Wish::Barred)),
            Step::Bar(part) => self.wish(part, Wish::Barred, Some(Wish::Wanted)),
            Step::Release(part) => self.wish(part, Wish::Free, None),
        })
    }

    // Sets the wish for a part, unless its wish is the one that this clashes with.
    fn wish(&mut self, part: u8, wish: Wish, clash: Option<Wish>) -> Answer {
        let place = usize::from(part);
        if place >= PARTS {
            return Err((41, place));
        }
        if Some(self.wishes[place]) == clash {
            return Err((42, place));
        }
        self.wishes[place] = wish;
        Ok(())
    }
}

// One of the parts 0 to 3 and 64 to 67.
fn part_of(number: u32) -> u8 {
    number.to_le_bytes()[1] & 67
}

// A step that a number stands for, on few parts and places, so that many are refused.
fn step_of(number: u32) -> Result<Step, Refusal> {
    let part = part_of(number);
    Ok(match number.to_le_bytes()[2] & 7 {
        0 | 1 => Step::Add(Rule::from_numbers(0, 1 << part.min(63), 0, 0)?),
        2 => Step::Strike(part.min(20) as usize),
        3 | 4 => Step::Want(part),
        5 | 6 => Step::Bar(part),
        _ => Step::Release(part),
    })
}

// Whether the enquiry holds what the model does.
fn alike(rt: &impl Abort, enquiry: &Priced, model: &Model) {
    for (part, wish) in (0..=255).zip(&model.wishes) {
        assert_eq!(rt; enquiry.wanted().has(part), *wish == Wish::Wanted);
        assert_eq!(rt; enquiry.barred().has(part), *wish == Wish::Barred);
    }
    assert_eq!(rt; enquiry.own().len(), model.own.len());
    for (rule, head) in enquiry.own().iter().zip(model.own.iter()) {
        assert_eq!(rt; rule.heads.lowest(), Some(*head));
    }
}

#[test]
fn blind_order(rt: HostRuntime) -> Result<(), Fail> {
    let mut enquiry = empty();
    let mut model = Model {
        own: Vec::new(rt.alloc()),
        wishes: [Wish::Free; 256],
    };
    let mut calls = Vec::new(rt.alloc());
    let mut number: u32 = 1;
    for _ in 0..500 {
        number = number.wrapping_mul(1_664_525).wrapping_add(1_013_904_223);
        let step = step_of(number)?;
        let head = part_of(number).min(63);
        assert_eq!(rt; done(enquiry.step(step)), model.step(step, head)?);
        calls.push(Call::Make(step))?;
        calls.push(Call::Check {
            outfit: Bits::from(number),
            room: number as usize % 400,
        })?;
        calls.push(Call::Offer)?;
    }
    alike(&rt, &enquiry, &model);
    alike(
        &rt,
        &run(TypedBook::open(), PriceSheet::new(), calls.as_slice()),
        &model,
    );
    Ok(())
}
