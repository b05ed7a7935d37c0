// The parts of lines that the plan's text, its drawing and the text of growth are made of: names of labels, and numbers.
#![tactic(auto)]

ghost use Rattle.std.specs.Prelude.{◌≡◌, ◌+◌, ◌*◌, ◌≤◌, ◌<◌, length, get_or};
ghost use Rattle.buffers.specs.Put.{Put};
ghost use Rattle.format.specs.Names.{unpadded};
ghost use Rattle.policy_file.specs.File.{name_of, count_of};
ghost use Rattle.plan_texts.specs.Listing.{numbers};
ghost use Rattle.plan_texts.specs.Drawing.{between, field, fields};
ghost use Rattle.plan_texts.specs.Printable.{Printable};

use plan_answers::Plan;

// A policy file and its plan, whose labels and their parents have their names in the file.
#[derive(Clone, Copy)]
pub struct PrintablePlan<'a> {
    pub policy: &'a [u8],
    pub plan: &'a Plan,
    pub ghost printable: { Printable policy.now plan.now },
}

// What is told of a label: its accounts, its weight, and how many keys one of its accounts holds.
#[derive(Clone, Copy)]
pub struct Figures {
    pub count: u32,
    pub weight: u32,
    pub size: u32,
}

impl PrintablePlan<'_> {
    // What is told of label `m`.
    #[tactic(auto, unfolding(policy_file::specs::File::count_of))]
    pub fn figures(&self, m: usize) -> Figures
        requires { m < self.now.plan.now.labels }
        ensures count { result.count ≡ count_of self.now.policy.now m }
        ensures weight { result.weight ≡ get_or self.now.plan.now.weights m 0 }
        ensures size { result.size ≡ get_or self.now.plan.now.sizes m 0 }
    {
        Figures {
            count: u32::from(format::read_number(self.policy, 12 * m + 10)),
            weight: self.plan.weights[m],
            size: u32::from(self.plan.sizes[m]),
        }
    }
}

// Writes the name of label `m` without its padding.
#[tactic(auto, using(format::proofs::Padding::unpadded_short, format::proofs::Padding::unpadded_taken), unfolding(policy_file::specs::File::name_of))]
pub fn put_name(policy: &[u8], m: usize, out: &mut [u8], at: usize) -> usize
    requires { (12 * m + 12 ≤ length policy.now) × (at + length (unpadded (name_of policy.now m)) ≤ length out.old) }
    ensures { Put out.old out.new at (unpadded (name_of policy.now m)) result }
{
    let name = names::read_name(policy, 12 * m + 2);
    let end = names::unpadded_length(&name);
    buffers::put_bytes(out, at, &name[..end])
}

// Writes three numbers, each after a space.
#[tactic(auto, using(plan_texts::proofs::ListingParts::numbers_length))]
pub fn put_numbers(out: &mut [u8], at: usize, weight: u32, size: u32, count: u32) -> usize
    requires { at + length (numbers weight size count) ≤ length out.old }
    ensures { Put out.old out.new at (numbers weight size count) result }
{
    let behind = decimals::put_number(out, at, weight);
    let accounts = decimals::put_number(out, behind, size);
    decimals::put_number(out, accounts, count)
}

// Writes the names of labels `a` and `b`, with a sign between them.
#[tactic(auto, using(plan_texts::proofs::DrawingParts::between_length))]
pub fn put_between(
    policy: &[u8],
    a: usize,
    sign: &[u8],
    b: usize,
    out: &mut [u8],
    at: usize,
) -> usize
    requires { (12 * a + 12 ≤ length policy.now) × (12 * b + 12 ≤ length policy.now) × (at + length (between policy.now a sign.now b) ≤ length out.old) }
    ensures { Put out.old out.new at (between policy.now a sign.now b) result }
{
    let open = buffers::put_bytes(out, at, b"  \"");
    let behind = put_name(policy, a, out, open);
    let other = buffers::put_bytes(out, behind, sign);
    put_name(policy, b, out, other)
}

// Writes a word, a space and a number.
#[tactic(auto, using(plan_texts::proofs::DrawingParts::field_length))]
pub fn put_field(out: &mut [u8], at: usize, word: &[u8], x: u32) -> usize
    requires { at + length (field word.now x) ≤ length out.old }
    ensures { Put out.old out.new at (field word.now x) result }
{
    let behind = buffers::put_bytes(out, at, word);
    decimals::put_number(out, behind, x)
}

// Writes the numbers of a label.
#[tactic(auto, using(plan_texts::proofs::DrawingParts::fields_length))]
pub fn put_fields(out: &mut [u8], at: usize, count: u32, weight: u32, size: u32) -> usize
    requires { at + length (fields count weight size) ≤ length out.old }
    ensures { Put out.old out.new at (fields count weight size) result }
{
    let second = put_field(out, at, b"\\naccounts", count);
    let third = put_field(out, second, b"\\nweight", weight);
    put_field(out, third, b"\\nkeys", size)
}
