// Envelopes written, from a policy's names, the order table and the plan's parents.
#![tactic(auto)]

ghost use Rattle.std.specs.Prelude.{◌+◌, ◌≤◌, ◌<◌, length};
ghost use Rattle.buffers.specs.Put.{Put};
ghost use Rattle.secrets.specs.Asks.{Hung};
ghost use Rattle.writer.specs.Tabled.{table_records, table_envelope};

// Writes a record for each label at or below label `l`, in policy order.
fn put_records(
    policy: &[u8],
    labels: usize,
    rows: &[[bool; 64]; 64],
    parents: &[u8; 64],
    root: [u8; 32],
    l: usize,
    out: &mut [u8],
    at: usize,
) -> usize
    requires { Hung policy.now parents.now labels × (l < 64) × (at + length (table_records policy.now rows.now parents.now root l labels) ≤ length out.old) }
    ensures { Put out.old out.new at (table_records policy.now rows.now parents.now root l labels) result }
{
    let below = envelope_tables::places(labels, rows, l);
    let held = envelope_tables::held_labels(labels, rows, parents, l);
    let secrets = secrets::make_secrets(policy, labels, parents, root, held);
    let mut end = at;
    for m in 0..labels {
        let inside = rows[m][l];
        if inside {
            let place = below[usize::from(parents[m])];
            end = record_writer::put_record(policy, m, held[m], secrets[m], place, out, end);
        }
    }
    end
}

// Writes the envelope of an account at label `l` from the buffer's start on.
pub fn write_envelope(
    policy: &[u8],
    labels: usize,
    rows: &[[bool; 64]; 64],
    parents: &[u8; 64],
    root: [u8; 32],
    l: usize,
    account: u32,
    out: &mut [u8],
) -> usize
    requires { Hung policy.now parents.now labels × (l < labels) × (length (table_envelope policy.now rows.now parents.now root l labels account) ≤ length out.old) }
    ensures { Put out.old out.new 0 (table_envelope policy.now rows.now parents.now root l labels account) result }
{
    let name = names::read_name(policy, 12 * l + 2);
    let behind = record_writer::put_header(out, account, name);
    put_records(policy, labels, rows, parents, root, l, out, behind)
}
