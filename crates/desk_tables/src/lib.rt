// The verbs of `yendlowa-desk` as tables, in the order of `verbs` in specs/Calls.antt: a row for each, and empty rows after them.
#![tactic(auto)]

ghost use Rattle.std.specs.Prelude.{map, ◌≡◌};
ghost use Rattle.format.specs.Names.{unpadded};
ghost use Rattle.verbs.specs.Tables.{words_of, least_of, most_of};
ghost use Rattle.desk_tables.specs.Calls.{verbs};

// Their words, with spaces after them.
const WORDS: [[u8; 16]; 16] = [
    *b"derive          ",
    *b"labels          ",
    *b"open            ",
    *b"                ",
    *b"                ",
    *b"                ",
    *b"                ",
    *b"                ",
    *b"                ",
    *b"                ",
    *b"                ",
    *b"                ",
    *b"                ",
    *b"                ",
    *b"                ",
    *b"                ",
];

pub fn words() -> [[u8; 16]; 16]
    ensures { map unpadded result ≡ words_of verbs }
{
    WORDS
}

// The least number of arguments of each.
pub fn least() -> [u8; 16]
    ensures { result ≡ least_of verbs }
{
    [4, 3, 5, 0, 0, 0, 0, 0, 0, 0, 0, 0, 0, 0, 0, 0]
}

// The greatest number of arguments of each.
pub fn most() -> [u8; 16]
    ensures { result ≡ most_of verbs }
{
    [4, 3, 5, 0, 0, 0, 0, 0, 0, 0, 0, 0, 0, 0, 0, 0]
}

// How each is called.
const SYNOPSES: [[u8; 80]; 16] = [
    *b"yendlowa-desk derive ENVELOPE NAME                                              ",
    *b"yendlowa-desk labels ENVELOPE                                                   ",
    *b"yendlowa-desk open ENVELOPE SEALED OUT                                          ",
    *b"                                                                                ",
    *b"                                                                                ",
    *b"                                                                                ",
    *b"                                                                                ",
    *b"                                                                                ",
    *b"                                                                                ",
    *b"                                                                                ",
    *b"                                                                                ",
    *b"                                                                                ",
    *b"                                                                                ",
    *b"                                                                                ",
    *b"                                                                                ",
    *b"                                                                                ",
];

pub fn synopses() -> [[u8; 80]; 16] {
    SYNOPSES
}
