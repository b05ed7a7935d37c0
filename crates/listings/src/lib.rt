// Listings: what has a line for each of its items, and all of its lines written into a buffer.
#![tactic(auto)]

ghost use Rattle.std.specs.Prelude.{ℕ, List, ◌≡◌, ◌+◌, ◌≤◌, ◌<◌, length};
ghost use Rattle.buffers.specs.Put.{Put};
ghost use Rattle.lists.specs.Tables.{concat_below};

// What is written line by line. A line may also be empty, or more than one line of text.
pub trait Lines {
    // how many lines there are
    ghost count: { Self → ℕ };

    // the bytes of line m
    ghost line: { Self → ℕ → List ℕ };

    // How many lines there are.
    fn count(&self) -> usize
        ensures { result ≡ count self.now };

    // Writes line `m` from `at` on, and answers the place after it.
    fn put_line(&self, m: usize, out: &mut [u8], at: usize) -> usize
        requires { (m < count self.now) × (at + length (line self.now m) ≤ length out.old) }
        ensures { Put out.old out.new at (line self.now m) result };
}

// Writes all lines, one after the other, from `start` on, and answers the place after them.
pub fn put_lines<L: Lines>(lines: &L, out: &mut [u8], start: usize) -> usize
    requires { start + length (concat_below (L.line lines.now) (L.count lines.now)) ≤ length out.old }
    ensures { Put out.old out.new start (concat_below (L.line lines.now) (L.count lines.now)) result }
{
    let mut at = start;
    for m in 0..lines.count() {
        at = lines.put_line(m, out, at);
    }
    at
}
