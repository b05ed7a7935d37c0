// The numbers of refusals in words (01, "Refusals by the place of checking"; 02).
ghost use Rattle.std.specs.Prelude.{◌≡◌};
ghost use Rattle.refusals.specs.Refusals.{refusal_words};

// What a number means.
pub(crate) fn meaning(number: u8) -> &'static str
    ensures { result.now ≡ refusal_words number }
{
    match number {
        0 => "accepted",
        1 => "the file is empty",
        2 => "fewer than 2 bytes are left, or the mark does not belong in this file",
        3 => "the record is cut short",
        4 => "an LB record follows an OV record",
        5 => "a 65th label, a 513th over-pair or a 65th envelope record",
        6 => "the name is badly formed (A to Z and digits, at least one, then spaces)",
        7 => "the name is carried by an earlier record",
        8 => "a number of the over-pair is not a label's",
        9 => "the upper number of the over-pair is not less than the lower",
        10 => "a label other than the first is never the lower of an over-pair",
        11 => "the length is not 2 plus the number of labels",
        12 => "a byte is not the number of a strictly higher label, or the top's is not 0",
        13 => "the policy has no label with this name",
        14 => "the label has no account with this number",
        15 => "the root secret does not have 32 bytes",
        16 => "the buffer is too short for what is to be written",
        17 => "the header has fewer than 12 bytes, a mark other than EN, or account 0",
        18 => "the first record is missing, is not a KS, or does not carry the header's name",
        19 => "the place in the KD record is not less than its own",
        20 => "the envelope has no label with this name",
        21 => "a key or message has more than 65,536 bytes",
        22 => "not a sealed file, a text above 32,768 bytes, or a nonce that is not 12 bytes",
        23 => "the tag differs: the file was altered, or sealed under another key",
        24 => "the number is not 1 to 4,096, or an account has or had it",
        25 => "the account is unknown or withdrawn",
        26 => "the account is held",
        _ => "no such refusal",
    }
}
