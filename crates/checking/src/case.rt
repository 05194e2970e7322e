// What is judged.
use crate::book::walk::InForce;
use sets::parts::Parts;

// An outfit, with the rules by which it is judged. They are lent: a list of rules that is moved is copied, all 8 KiB of it.
#[derive(Clone, Copy)]
pub(crate) struct Case<'a> {
    pub(crate) rules: &'a InForce,
    pub(crate) outfit: Parts,
}
