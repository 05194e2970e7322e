// The calls that the program makes, refused ones among them.
use checking::call::{Call, Step};
use checking::checker::ROOM;
use checking::rule::Rule;
use mill::fittings::{AXIAL, BRAKE, CROSS, FLOATGATE, GEARBOX, LIFTGATE, MILL};
use refusals::Refusal;
use sets::parts::Bits;

const COUNT: usize = 24;

const LIFTED: Bits = MILL | CROSS | LIFTGATE | GEARBOX;

pub(crate) const BRAKED: Bits = LIFTED | BRAKE;

fn check(outfit: Bits) -> Call {
    Call::Check { outfit, room: ROOM }
}

// Wishes are by number: 5 is the floatgate, 6 the liftgate; there are no parts 64 and 255.
pub(crate) fn calls() -> Result<[Call; COUNT], Refusal> {
    let lift_needs_brake = Rule::from_numbers(0, 0, LIFTGATE, BRAKE)?;
    let cross_brake = Rule::from_numbers(0, BRAKE, CROSS, 0)?;
    Ok([
        check(LIFTED),
        check(MILL | CROSS | FLOATGATE | GEARBOX),
        check(MILL | AXIAL | LIFTGATE | BRAKE | GEARBOX),
        Call::Make(Step::Add(lift_needs_brake)),
        Call::Make(Step::Add(cross_brake)),
        check(LIFTED),
        check(BRAKED),
        Call::Make(Step::Strike(2)),
        Call::Make(Step::Strike(0)),
        check(BRAKED),
        Call::Make(Step::Want(5)),
        check(BRAKED),
        Call::Make(Step::Bar(5)),
        Call::Make(Step::Want(64)),
        Call::Make(Step::Release(5)),
        Call::Make(Step::Bar(6)),
        Call::Make(Step::Want(6)),
        check(BRAKED),
        Call::Make(Step::Release(255)),
        Call::Make(Step::Release(6)),
        Call::Make(Step::Want(4)),
        check(LIFTED),
        Call::Check {
            outfit: BRAKED,
            room: ROOM - 1,
        },
        check(BRAKED),
    ])
}
