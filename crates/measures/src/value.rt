// The value of an outfit, and how two values compare.
ghost use Rattle.std.specs.Prelude.{◌≡◌};
ghost use Rattle.measures.specs.Values.{value as worth, ValueLaw};
ghost use Rattle.measures.specs.Ranks.{Ranks};

use crate::measure::Measure;
use sets::parts::Parts;
use std::cmp::Ordering;

/// The value of an outfit: the starting value, extended by its parts in ascending number.
pub fn value_of<M: Measure>(measure: &M, outfit: Parts) -> M::Value
    ensures value { result ≡ worth (M.scale measure.now) outfit }
    ensures law { ValueLaw (M.scale measure.now) }
{
    let mut value = measure.start();
    for part in outfit {
        value = measure.extend(&value, part);
    }
    value
}

// By the measure, whose order need not be one of the type of its values.

/// How two values compare: equal where each is at most the other.
pub fn compare<M: Measure>(measure: &M, a: &M::Value, b: &M::Value) -> Ordering
    ensures { Ranks (M.scale measure.now) a.now b.now result }
{
    if !measure.at_most(a, b) {
        return Ordering::Greater;
    }
    if measure.at_most(b, a) {
        Ordering::Equal
    } else {
        Ordering::Less
    }
}
