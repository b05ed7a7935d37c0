// Why a call of the issuer's program is refused, on standard error: the argument at fault, as it was typed, and the reason.
#![tactic(auto)]

// Tells the label at which a file is refused, and why.
fn tell_label(rt: HostRuntime, file: &[u8], label: [u8; 8], number: u8) {
    messages::tell(rt, file);
    let length = names::unpadded_length(&label);
    messages::tell_quoted(rt, &label[..length]);
    messages::tell(rt, b": ");
    reasons::tell_words(rt, number);
}

// Tells why the policy that argument i names is refused. One whose first record is read is not a text.
pub fn tell_policy(rt: HostRuntime, program: &[u8], i: usize, policy: &[u8], number: u8) {
    arguments::open_about(rt, program, i);
    let read = policy_reading::records_read(policy);
    if read == 0 && text_file::is_text(policy) {
        messages::tell(
            rt,
            b"policy file: this is a text; 'yendlowa-encode policy TEXT OUT' makes a policy file from it\n",
        );
    } else if number == 10 {
        tell_label(
            rt,
            b"policy file: label ",
            faults::second_top(policy),
            number,
        );
    } else {
        reasons::tell_policy(rt, number, read);
    }
}

// Tells why the roster that argument i names is refused, under a policy that is accepted. One whose first record is read is not a text.
fn tell_roster(
    rt: HostRuntime,
    program: &[u8],
    i: usize,
    policy: &[u8],
    roster: &[u8],
    number: u8,
) {
    arguments::open_about(rt, program, i);
    let read = roster_stops::records_read(policy, roster);
    if read == 0 && text_file::is_text(roster) {
        messages::tell(
            rt,
            b"roster file: this is a text; 'yendlowa-encode roster TEXT OUT' makes a roster file from it\n",
        );
    } else {
        reasons::tell_roster(rt, number, read);
    }
}

// Tells which of two files is refused: the policy that argument i names, or else the roster that argument j names.
pub fn tell_files(
    rt: HostRuntime,
    program: &[u8],
    i: usize,
    j: usize,
    policy: &[u8],
    roster: &[u8],
    number: u8,
) {
    if policy::read_policy(policy).refusal != 0 {
        tell_policy(rt, program, i, policy, number);
    } else {
        tell_roster(rt, program, j, policy, roster, number);
    }
}

// Tells why the tree file that argument i names is refused, under a policy that is accepted. One that has its mark and its length is not a text.
fn tell_tree_file(
    rt: HostRuntime,
    program: &[u8],
    i: usize,
    policy: &[u8],
    tree: &[u8],
    number: u8,
) {
    arguments::open_about(rt, program, i);
    if number == 12 {
        tell_label(
            rt,
            b"tree file: label ",
            faults::ill_hung(policy, tree),
            number,
        );
    } else if text_file::is_text(tree) {
        messages::tell(
            rt,
            b"tree file: this is a text; 'yendlowa-encode tree POLICYTEXT TREETEXT OUT' makes a tree file from it\n",
        );
    } else {
        reasons::tell_tree(rt, number);
    }
}

// Tells what `weigh` refuses: the policy that argument i names, or else the tree file that argument j names.
pub fn tell_tree(
    rt: HostRuntime,
    program: &[u8],
    i: usize,
    j: usize,
    policy: &[u8],
    tree: &[u8],
    number: u8,
) {
    if policy::read_policy(policy).refusal != 0 {
        tell_policy(rt, program, i, policy, number);
    } else {
        tell_tree_file(rt, program, j, policy, tree, number);
    }
}

// Tells what `key`, `issue` or `seal` refuses: the policy that argument i names, or else argument j, which the number speaks of.
pub fn tell_asked(rt: HostRuntime, program: &[u8], i: usize, j: usize, policy: &[u8], number: u8) {
    if policy::read_policy(policy).refusal != 0 {
        tell_policy(rt, program, i, policy, number);
    } else {
        arguments::tell_argument(rt, program, j, number);
    }
}

// Tells what `issue` with a roster refuses: one of the files that arguments i and j name, or else argument k, which the number speaks of.
pub fn tell_rostered(
    rt: HostRuntime,
    program: &[u8],
    i: usize,
    j: usize,
    k: usize,
    policy: &[u8],
    roster: &[u8],
    number: u8,
) {
    if rosters::read_files(policy, roster).refusal != 0 {
        tell_files(rt, program, i, j, policy, roster, number);
    } else {
        arguments::tell_argument(rt, program, k, number);
    }
}
