// The verbs of a command line: which one a word is, and whether it takes so many arguments. A program has up to 16; its tables
// have a row for each, and empty rows after them.
#![tactic(auto)]

ghost use Rattle.std.specs.Prelude.{[], map, ◌≡◌, ◌≤◌, ◌<◌, length, get_or, take};
ghost use Rattle.format.specs.Names.{unpadded};
ghost use Rattle.verbs.specs.Verbs.{is_verb, place_of, takes_so, trimmed_to};

// Whether a row, a text with spaces after it, is this word. An empty row is none.
fn is_verb(row: [u8; 16], word: &[u8]) -> bool
    ensures { result ≡ is_verb (unpadded row) word.now }
{
    let length = names::unpadded_length(&row);
    if length == 0 {
        return false;
    }
    check::same(&row[..length], word)
}

// The place of the first row that is this word; 16 if none is.
pub fn find(words: [[u8; 16]; 16], word: &[u8]) -> usize
    ensures { result ≡ place_of (map unpadded words) word.now }
{
    let mut i = 0;
    while i < 16 {
        if is_verb(words[i], word) {
            return i;
        }
        i += 1;
    }
    i
}

// Whether a verb takes so many arguments: at least and at most as many as the tables say. Where there is no verb it does not.
pub fn takes(least: [u8; 16], most: [u8; 16], verb: usize, count: usize) -> bool
    ensures { result ≡ takes_so least most verb count }
{
    if verb < 16 {
        return (least[verb] as usize) <= count && count <= (most[verb] as usize);
    }
    false
}

// How a verb is called: its row of that table.
pub fn synopsis(synopses: [[u8; 80]; 16], verb: usize) -> [u8; 80]
    requires { verb < 16 }
    ensures { result ≡ get_or synopses verb [] }
{
    synopses[verb]
}

// How long a text is without the spaces at its end.
pub fn trimmed_length(text: &[u8]) -> usize
    ensures value { result ≡ trimmed_to text.now (length text.now) }
    ensures upper_bound { (result ≤ length text.now) × (result ≡ length (take result text.now)) }
{
    let mut end = text.len();
    while 0 < end {
        if text[end - 1] != b' ' {
            return end;
        }
        end -= 1;
    }
    end
}
