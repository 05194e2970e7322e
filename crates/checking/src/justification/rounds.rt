// The derivation of an outfit's parts, round by round. Each rule is looked at once in each round.
ghost use Rattle.std.specs.Prelude.{◌≡◌, ◌<◌, ◌⊎◌, []};
ghost use Rattle.sets.specs.Width.{how_many};
ghost use Rattle.sets.specs.Members.{Apart, Empty, Has, Holds};
ghost use Rattle.lists.specs.Held.{held};
ghost use Rattle.checking.specs.Derivations.{Noted, Next, Added, Extended, Derived};

use crate::case::Case;
use crate::justification::{Derivation, Entry, Layer};
use lists::held::Held;
use sets::parts::{PARTS, Parts};

impl Layer {
    // No parts.
    fn none() -> Layer
        ensures { Empty result.parts }
    {
        Layer {
            parts: Parts::none(),
            lowest: [0; PARTS],
        }
    }

    // Puts parts in, each with this rule.
    fn note(&mut self, parts: Parts, rule: u8)
        ensures parts { Holds self.new.parts (λ p. Has self.old.parts p ⊎ Has parts p) }
        ensures noted { Noted parts rule self.old.lowest self.new.lowest }
    {
        self.parts = self.parts.union(parts);
        for part in parts {
            self.lowest[part as usize] = rule;
        }
    }
}

impl Derivation {
    fn none() -> Derivation
        ensures reached { Empty result.reached }
        ensures entries { held result.entries ≡ [] }
    {
        Derivation {
            reached: Parts::none(),
            entries: Held::none(Entry::default()),
        }
    }

    pub(crate) fn reached(&self) -> Parts
        ensures { result ≡ self.now.reached }
    {
        self.reached
    }

    // Puts an entry last, of a part that has none yet.
    fn add(&mut self, entry: Entry)
        requires known { entry.part < how_many }
        requires new { Has self.old.reached entry.part → ⊥ }
        ensures { Added entry self.old self.new }
    {
        self.reached = self.reached.with(entry.part);
        self.entries.push(entry).unwrap();
    }

    // Puts the entries of the parts of one round last.
    fn extend(&mut self, round: u8, layer: &Layer)
        requires { Apart layer.now.parts self.old.reached }
        ensures { Extended layer.now.parts round layer.now.lowest self.old self.new }
    {
        for part in layer.parts {
            let rule = layer.lowest[part as usize];
            self.add(Entry { part, round, rule });
        }
    }
}

impl Case<'_> {
    // The round after those whose parts are in `below`.
    fn next_round(self, below: Parts) -> Layer
        ensures { Next (held self.entry.rules.now) self.entry.outfit below result.parts result.lowest }
    {
        let mut layer = Layer::none();
        for (i, rule) in self.rules.items().iter().enumerate() {
            let fresh = rule
                .given(self.outfit, below)
                .minus(below.union(layer.parts));
            layer.note(fresh, i as u8);
        }
        layer
    }

    // Round after round, until the whole outfit is derived or a round brings nothing. There are no more rounds than parts.
    pub(crate) fn derive(self) -> Derivation
        ensures { Derived (held self.entry.rules.now) self.entry.outfit result }
    {
        let mut done = Derivation::none();
        for round in 1..=PARTS as u8 {
            if self.outfit.within(done.reached) {
                return done;
            }
            let layer = self.next_round(done.reached);
            if layer.parts.is_none() {
                return done;
            }
            done.extend(round, &layer);
        }
        done
    }
}
