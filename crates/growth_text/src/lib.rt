// What one more account costs, as text: a line for each label.
#![tactic(auto)]

ghost use Rattle.std.specs.Prelude.{◌≡◌, ◌+◌, ◌*◌, ◌≤◌, length};
ghost use Rattle.buffers.specs.Put.{Put};
ghost use Rattle.growth_answers.specs.GrowthListing.{figures, growth_line};
ghost use Rattle.growth_answers.specs.GrowthTextAnswer.{growth_written, growth_after};

use buffers::Written;
use growth_answers::Growth;
use listings::Lines;

// Writes what one account more costs at a label and the ceiling of that, `-` for each if there is no room for it.
// The flag stands beside the numbers, and no Option: the definition `figures` takes it so.
#[tactic(auto, using(growth_answers::proofs::GrowthParts::some_length, growth_answers::proofs::GrowthParts::figures_none))]
fn put_figures(out: &mut [u8], at: usize, room: bool, cost: u8, ceiling: u8) -> usize
    requires { at + length (figures room cost ceiling) ≤ length out.old }
    ensures { Put out.old out.new at (figures room cost ceiling) result }
{
    if room {
        let behind = decimals::put_number(out, at, u32::from(cost));
        return decimals::put_number(out, behind, u32::from(ceiling));
    }
    buffers::put_bytes(out, at, b" - -")
}

// The text of a policy file: a line for each label.
#[derive(Clone, Copy)]
struct GrowthLines<'a> {
    policy: &'a [u8],
    growth: &'a Growth,
    ghost few: { growth.now.labels ≤ 64 },
    ghost within: { 12 * growth.now.labels ≤ length policy.now },
}

impl Lines for GrowthLines<'_> {
    ghost count = { λ s. s.growth.now.labels };

    ghost line = { λ s m. growth_line s.policy.now s.growth.now m };

    fn count(&self) -> usize {
        self.growth.labels
    }

    #[tactic(auto, using(crate::proofs::Room::line_length))]
    fn put_line(&self, m: usize, out: &mut [u8], at: usize) -> usize {
        let room = format::read_number(self.policy, 12 * m + 10) < 65535;
        let cost = self.growth.costs[m];
        let ceiling = self.growth.ceilings[m];
        let behind = line_parts::put_name(self.policy, m, out, at);
        let end = put_figures(out, behind, room, cost, ceiling);
        buffers::put_bytes(out, end, b"\n")
    }
}

// Writes the text of an accepted policy file from the buffer's start on, or nothing if it has no room for it.
// No text has more than 960 bytes.
pub fn growth_text(policy: &[u8], out: &mut [u8]) -> Written
    ensures { (result ≡ growth_written policy.now (length out.old)) × (out.new ≡ growth_after policy.now out.old) }
{
    let growth = growth::growth_policy(policy);
    if growth.refusal != 0 {
        return buffers::refuse(growth.refusal);
    }
    let mut text = [0u8; 1024];
    let lines = GrowthLines {
        policy,
        growth: &growth,
    };
    let length = listings::put_lines(&lines, &mut text, 0);
    buffers::hand_out(&text[..length], out)
}
