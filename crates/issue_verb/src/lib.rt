// The issuer's verb `issue`, over the bytes of the files that it reads.
#![tactic(auto)]

ghost use Rattle.std.specs.Prelude.{true, ◌≡◌, MatchOption};
ghost use Rattle.fingerprint.specs.Fingerprint.{fingerprint_of};
ghost use Rattle.issuer_answers.specs.Issue.{issued_of};
ghost use Rattle.lines.specs.Lines.{issued_text};
ghost use Rattle.outcomes.specs.declared.Ended.TheVariants.{Failed};
ghost use Rattle.outcomes.specs.Status.{Said, Ends, is_done};

use outcomes::Ended;

// How a call ends by what was saved: with the size of an envelope, and the fingerprint of the root secret if it is asked for.
fn tell_saved(saved: Option<usize>, root: &[u8], option: bool) -> Ended
    ensures { MatchOption saved (result ≡ Failed) (λ size. (is_done result ≡ true) × Said 0 (issued_text size (fingerprint_of root.now).bytes option) result) }
{
    match saved {
        Some(size) => {
            let made = fingerprint::fingerprint(root);
            let print = made.bytes;
            let mut line = [0u8; 128];
            let end = lines::put_issued(&mut line, size, print, option);
            outcomes::ended_with(0, &line[..end])
        }
        None => Ended::Failed,
    }
}

// Writes the envelope of an account to a new file. `files`: the policy and the root secret, if they could be read.
pub fn issue(
    rt: HostRuntime,
    program: &[u8],
    files: Option<(&[u8], &[u8])>,
    name: &[u8],
    account: u32,
    option: bool,
    out: &[u8],
) -> Ended
    ensures { MatchOption files.entry (result ≡ Failed) (λ (policy, root). Ends (issued_of policy.now name.now account root.now 4096).refusal (issued_text (issued_of policy.now name.now account root.now 4096).length (fingerprint_of root.now).bytes option) result) }
{
    let Some((policy, root)) = files else {
        return Ended::Failed;
    };
    // More than the 2,700 bytes that every envelope fits into.
    let mut envelope = [0u8; 4096];
    let issued = issuer::issue(policy, name, account, root, &mut envelope);
    if issued.refusal != 0 {
        return answers::print(rt, program, outcomes::ended_with(issued.refusal, b""));
    }
    let length = issued.length;
    let envelope = &envelope[..length];
    let tell = |saved| tell_saved(saved, root, option);
    new_file::keep(rt, program, out, envelope, tell)
}
