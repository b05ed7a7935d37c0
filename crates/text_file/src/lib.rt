// Whether a file is a text: how a text is recognised that was handed in instead of a policy or a tree file.
#![tactic(auto)]

ghost use Rattle.std.specs.Prelude.{◌≡◌};
ghost use Rattle.text_file.specs.Texts.{is_text_byte, all_text, has_line, is_text};

// Whether a byte may stand in a text.
fn is_text_byte(byte: u8) -> bool
    ensures { result ≡ is_text_byte byte }
{
    matches!(byte, b'\t' | b'\n' | b'\r') || !shown::is_control(byte)
}

// Whether every byte may stand in a text.
fn all_text(file: &[u8]) -> bool
    ensures { result ≡ all_text file.now }
{
    file.iter().all(|byte| is_text_byte(*byte))
}

// Whether a line feed stands in a file.
fn has_line(file: &[u8]) -> bool
    ensures { result ≡ has_line file.now }
{
    file.contains(&b'\n')
}

// Whether a file is a text.
#[tactic(auto, unfolding(crate::specs::Texts::is_text))]
pub fn is_text(file: &[u8]) -> bool
    ensures { result ≡ is_text file.now }
{
    has_line(file) && all_text(file)
}
