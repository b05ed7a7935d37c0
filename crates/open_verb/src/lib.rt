// The desk's verb `open`, over the bytes of the files that it reads.
#![tactic(auto)]

ghost use Rattle.std.specs.Prelude.{true, ◌≡◌, MatchOption};
ghost use Rattle.lines.specs.Lines.{opened_text};
ghost use Rattle.open_answers.specs.Open.{opened_of};
ghost use Rattle.outcomes.specs.declared.Ended.TheVariants.{Failed};
ghost use Rattle.outcomes.specs.Status.{Said, Ends, is_done};

use outcomes::Ended;

// How a call ends by what was saved: with the size of the text.
fn tell_saved(saved: Option<usize>) -> Ended
    ensures { MatchOption saved (result ≡ Failed) (λ size. (is_done result ≡ true) × Said 0 (opened_text size) result) }
{
    match saved {
        Some(size) => {
            let mut line = [0u8; 128];
            let end = lines::put_opened(&mut line, size);
            outcomes::ended_with(0, &line[..end])
        }
        None => Ended::Failed,
    }
}

// Writes the text of a sealed file to a new file. `files`: the envelope and the sealed file, if they could be read.
pub fn open(rt: HostRuntime, program: &[u8], files: Option<(&[u8], &[u8])>, out: &[u8]) -> Ended
    ensures { MatchOption files.entry (result ≡ Failed) (λ (envelope, file). Ends (opened_of envelope.now file.now 32768).refusal (opened_text (opened_of envelope.now file.now 32768).length) result) }
{
    let Some((envelope, file)) = files else {
        return Ended::Failed;
    };
    // Room for every text (`opened_fits`, crate open_answers), so 16 is not given here.
    let mut text = [0u8; 32768];
    let opened = opening::open(envelope, file, &mut text);
    if opened.refusal != 0 {
        return answers::print(rt, program, outcomes::ended_with(opened.refusal, b""));
    }
    let length = opened.length;
    let text = &text[..length];
    new_file::keep(rt, program, out, text, tell_saved)
}
