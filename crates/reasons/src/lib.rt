// How a line about a refusal ends, on standard error: where it was given, and what it means. Crates places and refusals put these words into a buffer, as their definitions say.
#![tactic(auto)]

ghost use Rattle.std.specs.Prelude.{◌≤◌, length};

// Tells what is put at the start of a buffer with room for every such line.
fn tell_put<F: FnOnce(&mut [u8]) -> usize>(rt: HostRuntime, put: F)
    requires { (line : _) → 128 ≤ length line.now → F.pre put line }
{
    let mut line = [0u8; 128];
    let end = put(&mut line);
    messages::tell_front(rt, &line, end);
}

// Tells why a policy is refused, by 2 to 9 at the record after those that were read.
pub fn tell_policy(rt: HostRuntime, number: u8, read: usize) {
    tell_put(rt, |line| places::put_policy(line, number, read));
}

// Tells why a roster is refused, at the record after those that were read.
pub fn tell_roster(rt: HostRuntime, number: u8, read: usize) {
    tell_put(rt, |line| places::put_roster(line, number, read));
}

// Tells why a tree file is refused.
pub fn tell_tree(rt: HostRuntime, number: u8) {
    tell_put(rt, |line| places::put_tree(line, number));
}

// Tells why an envelope is refused: its header by 17, else the record after those that were read.
pub fn tell_envelope(rt: HostRuntime, number: u8, read: usize) {
    tell_put(rt, |line| places::put_envelope(line, number, read));
}

// Tells what a refusal means.
pub fn tell_words(rt: HostRuntime, number: u8) {
    tell_put(rt, |line| refusals::put_words(line, number));
}
