// The issuer's verb `key`, over the bytes of its files: how a call ends and what it says. Nothing here prints.
#![tactic(auto)]

ghost use Rattle.std.specs.Prelude.{◌≡◌, true, MatchOption};
ghost use Rattle.fingerprint.specs.Fingerprint.{fingerprint_of};
ghost use Rattle.issuer_answers.specs.Keys.{issuer_key_of};
ghost use Rattle.lines.specs.Lines.{key_text};
ghost use Rattle.outcomes.specs.declared.Ended.TheVariants.{Failed};
ghost use Rattle.outcomes.specs.Status.{is_done, Ends};

use outcomes::Ended;

// The issuer's key for a label, and the fingerprint of the root secret if it is asked for. `files`: the policy and the root secret, if they could be read.
pub fn key(files: Option<(&[u8], &[u8])>, name: &[u8], option: bool) -> Ended
    ensures { MatchOption files.entry (result ≡ Failed) (λ (policy, root). (is_done result ≡ true) × Ends (issuer_key_of policy.now name.now root.now).refusal (key_text (issuer_key_of policy.now name.now root.now).key (fingerprint_of root.now).bytes option) result) }
{
    let Some((policy, root)) = files else {
        return Ended::Failed;
    };
    let found = issuer_keys::issuer_key(policy, name, root);
    let key = found.key;
    let made = fingerprint::fingerprint(root);
    let print = made.bytes;
    let mut line = [0u8; 128];
    let end = lines::put_key(&mut line, key, print, option);
    outcomes::ended_with(found.refusal, &line[..end])
}
