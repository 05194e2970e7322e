// What a judge or a check answers.
use checking::checker::ROOM;
use refusals::Refusal;
use std::process::Abort;

// A refusal by its number and place: the examples expect these.
pub(crate) type Code = (u8, usize);

// How many parts are justified, or the number and place of the refusal, which leaves the buffer as it was.
pub(crate) fn answered<F: FnOnce(&mut [u8]) -> Result<usize, Refusal>>(
    rt: &impl Abort,
    ask: F,
) -> Result<usize, Code>
    requires { F.IsAlwaysCallable ask }
{
    let mut buffer = [255; ROOM];
    let answer = ask(&mut buffer);
    assert!(rt; answer.is_ok() || buffer == [255; ROOM]);
    answer.map_err(Refusal::code)
}
