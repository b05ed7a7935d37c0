// The desk's verbs, over the bytes of an envelope: how a call ends and what it says. Nothing here prints. An envelope that could
// not be read is None, and the call has failed.
#![tactic(auto)]

ghost use Rattle.std.specs.Prelude.{◌≡◌, true, MatchOption};
ghost use Rattle.envelope_file.specs.Derive.{derived_of};
ghost use Rattle.envelope_file.specs.Labels.{envelope_labels};
ghost use Rattle.label_lines.specs.Labels.{labels_text};
ghost use Rattle.lines.specs.Lines.{hex_line};
ghost use Rattle.outcomes.specs.declared.Ended.TheVariants.{Failed};
ghost use Rattle.outcomes.specs.Status.{is_done, Ends};

use outcomes::Ended;

// A key that was derived, or the refusal.
fn with_key(refusal: u8, key: [u8; 32]) -> Ended
    ensures { (is_done result ≡ true) × Ends refusal (hex_line key) result }
{
    let mut line = [0u8; 72];
    let end = lines::put_hex(&mut line, 0, &key);
    outcomes::ended_with(refusal, &line[..end])
}

// The key that an envelope gives for a label.
pub fn derive(envelope: Option<&[u8]>, name: &[u8]) -> Ended
    ensures { MatchOption envelope.entry (result ≡ Failed) (λ file. (is_done result ≡ true) × Ends (derived_of file.now name.now).refusal (hex_line (derived_of file.now name.now).key) result) }
{
    let Some(envelope) = envelope else {
        return Ended::Failed;
    };
    let derived = desk::derive(envelope, name);
    let key = derived.key;
    with_key(derived.refusal, key)
}

// An envelope's account and the names of its labels.
pub fn labels(envelope: Option<&[u8]>) -> Ended
    ensures { MatchOption envelope.entry (result ≡ Failed) (λ file. (is_done result ≡ true) × Ends (envelope_labels file.now).refusal (labels_text (envelope_labels file.now).account (envelope_labels file.now).names (envelope_labels file.now).labels) result) }
{
    let Some(file) = envelope else {
        return Ended::Failed;
    };
    let found = envelope_labels::read_labels(file);
    let names = found.names;
    let mut out = [0u8; 640];
    let end = label_lines::put_labels(&mut out, found.account, names, found.labels);
    outcomes::ended_with(found.refusal, &out[..end])
}
