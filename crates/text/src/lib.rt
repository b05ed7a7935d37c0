// The plan as text.
#![tactic(auto)]

ghost use Rattle.std.specs.Prelude.{◌≡◌, ◌≤◌, length};
ghost use Rattle.buffers.specs.Put.{Put};
ghost use Rattle.plan_texts.specs.Listing.{listing};
ghost use Rattle.plan_texts.specs.TextAnswer.{text_written, text_after};

use buffers::Written;
use line_parts::PrintablePlan;
use text_lines::TextLines;

// Writes the text of a policy file and its plan from the buffer's start on.
#[tactic(auto, using(plan_texts::proofs::ListingParts::listing_length))]
fn write_text(lines: &TextLines<'_>, out: &mut [u8]) -> usize
    requires { length (listing lines.now.printed.policy.now lines.now.printed.plan.now) ≤ length out.old }
    ensures { Put out.old out.new 0 (listing lines.now.printed.policy.now lines.now.printed.plan.now) result }
{
    let behind = listings::put_lines(lines, out, 0);
    decimals::put_worded(out, behind, b"TOTAL", lines.printed.plan.total)
}

// Writes the text of an accepted policy file from the buffer's start on, or nothing if it has no room for it.
// No text has more than 3,281 bytes.
pub fn plan_text(policy: &[u8], out: &mut [u8]) -> Written
    ensures { (result ≡ text_written policy.now (length out.old)) × (out.new ≡ text_after policy.now out.old) }
{
    let plan = planner::plan_policy(policy);
    if plan.refusal != 0 {
        return buffers::refuse(plan.refusal);
    }
    let mut text = [0u8; 4096];
    let printed = PrintablePlan {
        policy,
        plan: &plan,
    };
    let length = write_text(&TextLines { printed }, &mut text);
    buffers::hand_out(&text[..length], out)
}
