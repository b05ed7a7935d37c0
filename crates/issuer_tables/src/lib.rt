// The verbs of `yendlowa` as tables, in the order of `verbs` in specs/Calls.antt: a row for each, and empty rows after them.
#![tactic(auto)]

ghost use Rattle.std.specs.Prelude.{map, ◌≡◌};
ghost use Rattle.format.specs.Names.{unpadded};
ghost use Rattle.verbs.specs.Tables.{words_of, least_of, most_of};
ghost use Rattle.issuer_tables.specs.Calls.{verbs};

// Their words, with spaces after them.
const WORDS: [[u8; 16]; 16] = [
    *b"plan            ",
    *b"draw            ",
    *b"weigh           ",
    *b"key             ",
    *b"issue           ",
    *b"root            ",
    *b"seal            ",
    *b"growth          ",
    *b"                ",
    *b"                ",
    *b"                ",
    *b"                ",
    *b"                ",
    *b"                ",
    *b"                ",
    *b"                ",
];

pub fn words() -> [[u8; 16]; 16]
    ensures { map unpadded result ≡ words_of verbs }
{
    WORDS
}

// The least number of arguments of each.
pub fn least() -> [u8; 16]
    ensures { result ≡ least_of verbs }
{
    [2, 2, 4, 5, 7, 3, 8, 2, 0, 0, 0, 0, 0, 0, 0, 0]
}

// The greatest number of arguments of each.
pub fn most() -> [u8; 16]
    ensures { result ≡ most_of verbs }
{
    [3, 3, 4, 5, 7, 3, 8, 3, 0, 0, 0, 0, 0, 0, 0, 0]
}

// How each is called.
const SYNOPSES: [[u8; 80]; 16] = [
    *b"yendlowa plan [POLICY]                                                          ",
    *b"yendlowa draw [POLICY]                                                          ",
    *b"yendlowa weigh POLICY TREE                                                      ",
    *b"yendlowa key [--fingerprint] POLICY NAME ROOT                                   ",
    *b"yendlowa issue [--fingerprint] POLICY NAME ACCOUNT ROOT OUT                     ",
    *b"yendlowa root OUT                                                               ",
    *b"yendlowa seal [--fingerprint] POLICY NAME ROOT NONCE TEXT OUT                   ",
    *b"yendlowa growth [POLICY]                                                        ",
    *b"                                                                                ",
    *b"                                                                                ",
    *b"                                                                                ",
    *b"                                                                                ",
    *b"                                                                                ",
    *b"                                                                                ",
    *b"                                                                                ",
    *b"                                                                                ",
];

pub fn synopses() -> [[u8; 80]; 16] {
    SYNOPSES
}
