// What `labels` prints, as bytes in a buffer.
#![tactic(auto)]

ghost use Rattle.std.specs.Prelude.{◌+◌, ◌*◌, ◌≤◌, ◌<◌, length};
ghost use Rattle.buffers.specs.Put.{Put};
ghost use Rattle.label_lines.specs.Labels.{name_line, name_lines, labels_text};

// Writes the name of label k.
fn put_name(out: &mut [u8], at: usize, names: [u8; 512], k: usize) -> usize
    requires { (k < 64) × (at + 9 ≤ length out.old) }
    ensures { Put out.old out.new at (name_line names k) result }
{
    let name = names::read_name(&names, 8 * k);
    let length = names::unpadded_length(&name);
    let end = buffers::put_bytes(out, at, &name[..length]);
    buffers::put_bytes(out, end, b"\n")
}

// Writes the names of labels.
fn put_names(out: &mut [u8], start: usize, names: [u8; 512], labels: usize) -> usize
    requires { (labels ≤ 64) × (start + 9 * labels ≤ length out.old) }
    ensures { Put out.old out.new start (name_lines names labels) result }
{
    let mut at = start;
    for k in 0..labels {
        at = put_name(out, at, names, k);
    }
    at
}

// Writes an account and the names of labels.
pub fn put_labels(out: &mut [u8], account: u16, names: [u8; 512], labels: usize) -> usize
    requires { (labels ≤ 64) × (640 ≤ length out.old) }
    ensures { Put out.old out.new 0 (labels_text account names labels) result }
{
    let start = decimals::put_worded(out, 0, b"ACCOUNT", u32::from(account));
    put_names(out, start, names, labels)
}
