// The bytes of a justification.
ghost use Rattle.std.specs.Prelude.{◌≡◌, ◌≤◌, length};
ghost use Rattle.checking.specs.Sizes.{least_room};
ghost use Rattle.lists.specs.Held.{held};
ghost use Rattle.checking.specs.Justification.{bytes, fronted};

use crate::justification::Derivation;

impl Derivation {
    // Writes the entries at the front of the buffer, and answers how many there are.
    pub(crate) fn write(&self, buffer: &mut [u8]) -> usize
        requires { least_room ≤ length buffer.old }
        ensures count { result ≡ length (held self.now.entries) }
        ensures buffer { buffer.new ≡ fronted (bytes (held self.now.entries)) buffer.old }
    {
        let entries = self.entries.items();
        // By index: where the buffer is lent as chunks, nothing is known of what it holds afterwards (tried, and no proof closes).
        for (i, entry) in entries.iter().enumerate() {
            buffer[3 * i] = entry.part;
            buffer[3 * i + 1] = entry.round;
            buffer[3 * i + 2] = entry.rule;
        }
        entries.len()
    }
}
