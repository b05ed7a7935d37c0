// The issuer's verb `root`.
#![tactic(auto)]

ghost use Rattle.std.specs.Prelude.{ℕ, true, List, ◌≡◌, MatchOption, IfSome, length};
ghost use Rattle.fingerprint.specs.Fingerprint.{fingerprint_of};
ghost use Rattle.lines.specs.Lines.{fingerprint_line};
ghost use Rattle.outcomes.specs.declared.Ended.TheVariants.{Failed};
ghost use Rattle.outcomes.specs.Status.{Said, Ends, is_done};

use outcomes::Ended;
use std::random::RandomSource;

// How a call ends by what was saved, all of a root secret or nothing: with its fingerprint.
fn tell_saved(saved: Option<usize>, root: &[u8]) -> Ended
    requires { IfSome saved (λ size. size ≡ length root.now) }
    ensures { MatchOption saved (result ≡ Failed) (λ size. (is_done result ≡ true) × Said 0 (fingerprint_line (fingerprint_of root.now).bytes) result) }
{
    match saved {
        Some(_) => {
            let made = fingerprint::fingerprint(root);
            let print = made.bytes;
            let mut line = [0u8; 32];
            let end = lines::put_fingerprint(&mut line, 0, print);
            outcomes::ended_with(0, &line[..end])
        }
        None => Ended::Failed,
    }
}

// Saves a root secret, if one was drawn, and prints its fingerprint.
fn keep_root(rt: HostRuntime, program: &[u8], out: &[u8], drawn: Option<[u8; 32]>) -> Ended
    ensures { MatchOption drawn (result ≡ Failed) (λ root. Ends 0 (fingerprint_line (fingerprint_of root).bytes) result) }
{
    let Some(root) = drawn else {
        return Ended::Failed;
    };
    let root = root.as_slice();
    new_file::keep(rt, program, out, root, |saved| tell_saved(saved, root))
}

// Has the system draw a root secret. Why it did not is told.
fn draw(rt: HostRuntime, program: &[u8]) -> Option<[u8; 32]>
    ensures { IfSome result (λ root. length root ≡ 32) }
{
    let mut root = [0u8; 32];
    match rt.fill_bytes(&mut root) {
        Ok(()) => Some(root),
        Err(error) => {
            messages::failed(rt, program, b"getentropy", error);
            None
        }
    }
}

// Makes a root secret in a new file. Nothing is refused, and the fingerprint is that of some 32 bytes: those that the system drew.
pub fn make_root(rt: HostRuntime, program: &[u8], out: &[u8]) -> Ended
    ensures { (root : List ℕ) × (length root ≡ 32) × Ends 0 (fingerprint_line (fingerprint_of root).bytes) result }
{
    let drawn = draw(rt, program);
    keep_root(rt, program, out, drawn)
}
