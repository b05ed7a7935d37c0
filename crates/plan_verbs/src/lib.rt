// The issuer's verbs on policies and trees, over the bytes of their files: how a call ends and what it says. Nothing here prints. A file that could
// not be read is None, and the call has failed.
#![tactic(auto)]

ghost use Rattle.std.specs.Prelude.{◌≡◌, true, MatchOption};
ghost use Rattle.growth_answers.specs.GrowthListing.{growth_text};
ghost use Rattle.plan_texts.specs.Drawing.{dot_text};
ghost use Rattle.weigh_lines.specs.Weighed.{weighed_text};
ghost use Rattle.outcomes.specs.declared.Ended.TheVariants.{Failed};
ghost use Rattle.outcomes.specs.Status.{is_done, Ends};
ghost use Rattle.plan_answers.specs.Weighing.{weigh_of};
ghost use Rattle.policy_file.specs.Whole.{policy_refusal};
ghost use Rattle.plan_texts.specs.Listing.{plan_text};

use outcomes::Ended;

// The plan of a policy.
pub fn plan(policy: Option<&[u8]>) -> Ended
    ensures { MatchOption policy.entry (result ≡ Failed) (λ file. (is_done result ≡ true) × Ends (policy_refusal file.now) (plan_text file.now) result) }
{
    let Some(file) = policy else {
        return Ended::Failed;
    };
    // 4,096 bytes suffice (`text_suffices`, crate plan_texts).
    let mut out = [0u8; 4096];
    let written = text::plan_text(file, &mut out);
    let length = written.length;
    outcomes::ended_with(written.refusal, &out[..length])
}

// The drawing of a policy's plan.
pub fn draw(policy: Option<&[u8]>) -> Ended
    ensures { MatchOption policy.entry (result ≡ Failed) (λ file. (is_done result ≡ true) × Ends (policy_refusal file.now) (dot_text file.now) result) }
{
    let Some(policy) = policy else {
        return Ended::Failed;
    };
    // 8,192 bytes suffice (`dot_suffices`, crate plan_texts).
    let mut out = [0u8; 8192];
    let drawn = dot::plan_dot(policy, &mut out);
    let length = drawn.length;
    outcomes::ended_with(drawn.refusal, &out[..length])
}

// What an offered tree weighs, and whether no tree weighs less.
pub fn weigh(files: Option<(&[u8], &[u8])>) -> Ended
    ensures { MatchOption files.entry (result ≡ Failed) (λ (policy, tree). (is_done result ≡ true) × Ends (weigh_of policy.now tree.now).refusal (weighed_text (weigh_of policy.now tree.now).total (weigh_of policy.now tree.now).least) result) }
{
    let Some((policy, tree)) = files else {
        return Ended::Failed;
    };
    let weighed = weighing::weigh(policy, tree);
    let mut out = [0u8; 64];
    let end = weigh_lines::put_weighed(&mut out, weighed.total, weighed.least);
    outcomes::ended_with(weighed.refusal, &out[..end])
}

// What one more account costs at each label of a policy.
pub fn growth(policy: Option<&[u8]>) -> Ended
    ensures { MatchOption policy.entry (result ≡ Failed) (λ file. (is_done result ≡ true) × Ends (policy_refusal file.now) (growth_text file.now) result) }
{
    let Some(bytes) = policy else {
        return Ended::Failed;
    };
    // 1,024 bytes suffice (`growth_suffices`, crate growth_answers).
    let mut out = [0u8; 1024];
    let grown = growth_text::growth_text(bytes, &mut out);
    let length = grown.length;
    outcomes::ended_with(grown.refusal, &out[..length])
}
