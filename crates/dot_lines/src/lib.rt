// The lines of the drawing: a box for each label, and the arrow from its parent.
#![tactic(auto)]

ghost use Rattle.std.specs.Prelude.{◌+◌, ◌≤◌, ◌<◌, length};
ghost use Rattle.buffers.specs.Put.{Put};
ghost use Rattle.plan_texts.specs.Drawing.{node, edge, drawn};

use line_parts::{Figures, PrintablePlan};
use listings::Lines;

// The plan as a drawing: what is drawn of each label.
#[derive(Clone, Copy)]
pub struct DotLines<'a> {
    pub printed: PrintablePlan<'a>,
}

impl DotLines<'_> {
    // Writes the box of label `m`.
    #[tactic(auto, using(plan_texts::proofs::DrawingParts::node_length))]
    fn put_node(&self, m: usize, out: &mut [u8], at: usize) -> usize
        requires { (m < self.now.printed.plan.now.labels) × (at + length (node self.now.printed.policy.now self.now.printed.plan.now m) ≤ length out.old) }
        ensures { Put out.old out.new at (node self.now.printed.policy.now self.now.printed.plan.now m) result }
    {
        let policy = self.printed.policy;
        let Figures {
            count,
            weight,
            size,
        } = self.printed.figures(m);
        let behind = line_parts::put_between(policy, m, b"\" [label=\"", m, out, at);
        let end = line_parts::put_fields(out, behind, count, weight, size);
        buffers::put_bytes(out, end, b"\"];\n")
    }

    // Writes the arrow from label `m`'s parent, nothing for the top.
    #[tactic(auto, using(plan_texts::proofs::DrawingParts::edge_length, plan_texts::proofs::DrawingParts::edge_top, buffers::proofs::Writes::put_nothing))]
    fn put_edge(&self, m: usize, out: &mut [u8], at: usize) -> usize
        requires { (m < self.now.printed.plan.now.labels) × (at + length (edge self.now.printed.policy.now self.now.printed.plan.now m) ≤ length out.old) }
        ensures { Put out.old out.new at (edge self.now.printed.policy.now self.now.printed.plan.now m) result }
    {
        if m == 0 {
            return at;
        }
        let PrintablePlan { policy, plan } = self.printed;
        let parent = usize::from(plan.parents[m]);
        let behind = line_parts::put_between(policy, parent, b"\" -> \"", m, out, at);
        buffers::put_bytes(out, behind, b"\";\n")
    }
}

impl Lines for DotLines<'_> {
    ghost count = { λ s. s.printed.plan.now.labels };

    ghost line = { λ s m. drawn s.printed.policy.now s.printed.plan.now m };

    fn count(&self) -> usize {
        self.printed.plan.labels
    }

    #[tactic(auto, using(plan_texts::proofs::DrawingParts::drawn_length))]
    fn put_line(&self, m: usize, out: &mut [u8], at: usize) -> usize {
        let behind = self.put_node(m, out, at);
        self.put_edge(m, out, behind)
    }
}
