// The lines of the plan's text, one for each label.
#![tactic(auto)]

ghost use Rattle.std.specs.Prelude.{◌+◌, ◌≤◌, ◌<◌, length};
ghost use Rattle.buffers.specs.Put.{Put};
ghost use Rattle.plan_texts.specs.Listing.{parent_name, names, line};

use line_parts::{Figures, PrintablePlan};
use listings::Lines;

// The plan as text: a line for each label.
#[derive(Clone, Copy)]
pub struct TextLines<'a> {
    pub printed: PrintablePlan<'a>,
}

impl TextLines<'_> {
    // Writes the name of label `m`'s parent, `-` for the top.
    #[tactic(auto, using(plan_texts::proofs::ListingParts::parent_top, plan_texts::proofs::ListingParts::parent_other))]
    fn put_parent(&self, m: usize, out: &mut [u8], at: usize) -> usize
        requires { (m < self.now.printed.plan.now.labels) × (at + length (parent_name self.now.printed.policy.now self.now.printed.plan.now m) ≤ length out.old) }
        ensures { Put out.old out.new at (parent_name self.now.printed.policy.now self.now.printed.plan.now m) result }
    {
        if m == 0 {
            return buffers::put_bytes(out, at, b"-");
        }
        let PrintablePlan { policy, plan } = self.printed;
        line_parts::put_name(policy, usize::from(plan.parents[m]), out, at)
    }

    // Writes the name of label `m`, a space and its parent's name.
    #[tactic(auto, using(plan_texts::proofs::ListingParts::names_length))]
    fn put_names(&self, m: usize, out: &mut [u8], at: usize) -> usize
        requires { (m < self.now.printed.plan.now.labels) × (at + length (names self.now.printed.policy.now self.now.printed.plan.now m) ≤ length out.old) }
        ensures { Put out.old out.new at (names self.now.printed.policy.now self.now.printed.plan.now m) result }
    {
        let behind = line_parts::put_name(self.printed.policy, m, out, at);
        let parent = buffers::put_bytes(out, behind, b" ");
        self.put_parent(m, out, parent)
    }
}

impl Lines for TextLines<'_> {
    ghost count = { λ s. s.printed.plan.now.labels };

    ghost line = { λ s m. line s.printed.policy.now s.printed.plan.now m };

    fn count(&self) -> usize {
        self.printed.plan.labels
    }

    #[tactic(auto, using(plan_texts::proofs::ListingParts::line_length))]
    fn put_line(&self, m: usize, out: &mut [u8], at: usize) -> usize {
        let Figures {
            count,
            weight,
            size,
        } = self.printed.figures(m);
        let behind = self.put_names(m, out, at);
        let line_end = line_parts::put_numbers(out, behind, weight, size, count);
        buffers::put_bytes(out, line_end, b"\n")
    }
}
