// The plan as a drawing in Graphviz's language.
#![tactic(auto)]

ghost use Rattle.std.specs.Prelude.{◌≡◌, ◌+◌, ◌≤◌, length};
ghost use Rattle.buffers.specs.Put.{Put};
ghost use Rattle.plan_texts.specs.Drawing.{ending, drawing};
ghost use Rattle.plan_texts.specs.DrawingAnswer.{drawing_written, drawing_after};

use buffers::Written;
use dot_lines::DotLines;
use line_parts::PrintablePlan;
use plan_answers::Plan;

// Writes the total and the drawing's end.
#[tactic(auto, using(plan_texts::proofs::DrawingParts::ending_length))]
fn put_ending(out: &mut [u8], at: usize, plan: &Plan) -> usize
    requires { at + length (ending plan.now) ≤ length out.old }
    ensures { Put out.old out.new at (ending plan.now) result }
{
    let behind = line_parts::put_field(out, at, b"  label=\"TOTAL", plan.total);
    buffers::put_bytes(out, behind, b"\";\n}\n")
}

// Writes the drawing of a policy file and its plan from the buffer's start on.
#[tactic(auto, using(plan_texts::proofs::DrawingParts::drawing_length))]
fn write_dot(lines: &DotLines<'_>, out: &mut [u8]) -> usize
    requires { length (drawing lines.now.printed.policy.now lines.now.printed.plan.now) ≤ length out.old }
    ensures { Put out.old out.new 0 (drawing lines.now.printed.policy.now lines.now.printed.plan.now) result }
{
    let start = buffers::put_bytes(out, 0, b"digraph plan {\n  node [shape=box];\n");
    let behind = listings::put_lines(lines, out, start);
    put_ending(out, behind, lines.printed.plan)
}

// Writes the drawing of an accepted policy file from the buffer's start on, or nothing if it has no room for it.
// No drawing has more than 7,617 bytes.
pub fn plan_dot(policy: &[u8], out: &mut [u8]) -> Written
    ensures { (result ≡ drawing_written policy.now (length out.old)) × (out.new ≡ drawing_after policy.now out.old) }
{
    let plan = planner::plan_policy(policy);
    if plan.refusal != 0 {
        return buffers::refuse(plan.refusal);
    }
    let mut drawing = [0u8; 8192];
    let printed = PrintablePlan {
        policy,
        plan: &plan,
    };
    let length = write_dot(&DotLines { printed }, &mut drawing);
    buffers::hand_out(&drawing[..length], out)
}
