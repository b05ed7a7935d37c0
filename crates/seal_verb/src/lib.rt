// The issuer's verb `seal`, over the bytes of the files that it reads.
#![tactic(auto)]

ghost use Rattle.std.specs.Prelude.{true, ◌≡◌, MatchOption};
ghost use Rattle.fingerprint.specs.Fingerprint.{fingerprint_of};
ghost use Rattle.lines.specs.Lines.{sealed_text};
ghost use Rattle.outcomes.specs.declared.Ended.TheVariants.{Failed};
ghost use Rattle.outcomes.specs.Status.{Said, Ends, is_done};
ghost use Rattle.seal_answers.specs.Seal.{sealed_of};

use outcomes::Ended;

// How a call ends by what was saved: with the size of a sealed file, and the fingerprint of the root secret if it is asked for.
fn tell_saved(saved: Option<usize>, root: &[u8], option: bool) -> Ended
    ensures { MatchOption saved (result ≡ Failed) (λ size. (is_done result ≡ true) × Said 0 (sealed_text size (fingerprint_of root.now).bytes option) result) }
{
    match saved {
        Some(size) => {
            let made = fingerprint::fingerprint(root);
            let print = made.bytes;
            let mut line = [0u8; 128];
            let end = lines::put_sealed(&mut line, size, print, option);
            outcomes::ended_with(0, &line[..end])
        }
        None => Ended::Failed,
    }
}

// Writes the sealed file of a text to a new file. `files`: the nonce and the text, if they could be read.
pub fn seal(
    rt: HostRuntime,
    program: &[u8],
    policy: &[u8],
    name: &[u8],
    root: &[u8],
    files: Option<(&[u8], &[u8])>,
    option: bool,
    out: &[u8],
) -> Ended
    ensures { MatchOption files.entry (result ≡ Failed) (λ (nonce, text). Ends (sealed_of policy.now name.now root.now nonce.now text.now 32806).refusal (sealed_text (sealed_of policy.now name.now root.now nonce.now text.now 32806).length (fingerprint_of root.now).bytes option) result) }
{
    let Some((nonce, text)) = files else {
        return Ended::Failed;
    };
    // Room for every sealed file (`sealed_fits`, crate seal_answers), so 16 is not given here.
    let mut file = [0u8; 32806];
    let sealed = sealing::seal(policy, name, root, nonce, text, &mut file);
    if sealed.refusal != 0 {
        return answers::print(rt, program, outcomes::ended_with(sealed.refusal, b""));
    }
    let length = sealed.length;
    let file = &file[..length];
    let tell = |saved| tell_saved(saved, root, option);
    new_file::keep(rt, program, out, file, tell)
}
