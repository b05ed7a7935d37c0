// What `weigh` prints, as bytes in a buffer.
#![tactic(auto)]

ghost use Rattle.std.specs.Prelude.{◌+◌, ◌≤◌, length};
ghost use Rattle.buffers.specs.Put.{Put};
ghost use Rattle.weigh_lines.specs.Weighed.{least_line, weighed_text};

// Writes whether no tree has a smaller total.
fn put_least(out: &mut [u8], at: usize, least: bool) -> usize
    requires { at + 16 ≤ length out.old }
    ensures { Put out.old out.new at (least_line least) result }
{
    if least {
        buffers::put_bytes(out, at, b"LEAST yes\n")
    } else {
        buffers::put_bytes(out, at, b"LEAST no\n")
    }
}

// Writes what `weigh` prints.
pub fn put_weighed(out: &mut [u8], total: u32, least: bool) -> usize
    requires { 64 ≤ length out.old }
    ensures { Put out.old out.new 0 (weighed_text total least) result }
{
    let end = decimals::put_worded(out, 0, b"TOTAL", total);
    put_least(out, end, least)
}
