// Policies, plans and offered trees.
use crate::print;
use plan_answers::{Plan, Weighed};

// How many labels and pairs a policy has.
pub(crate) fn policy(rt: HostRuntime, file: &[u8]) {
    let p = policy::read_policy(file);
    if print::accepted(rt, p.refusal) {
        let _ = print!(rt; "{} labels, {} pairs", p.labels, p.pairs);
    }
}

// For each label its parent, weight and set size, and the total.
pub(crate) fn tell_plan(rt: HostRuntime, p: &Plan) {
    if print::accepted(rt, p.refusal) {
        let figures = p.parents.iter().zip(&p.weights).zip(&p.sizes);
        for ((parent, weight), size) in figures.take(p.labels) {
            let _ = print!(rt; "{parent} {weight} {size}, ");
        }
        let _ = print!(rt; "total {}", p.total);
    }
}

// A policy's plan.
pub(crate) fn plan(rt: HostRuntime, file: &[u8]) {
    tell_plan(rt, &planner::plan_policy(file));
}

// The total of an offered tree, and whether it is the least.
pub(crate) fn tell_tree(rt: HostRuntime, w: Weighed) {
    if print::accepted(rt, w.refusal) {
        let least = if w.least { "least" } else { "not least" };
        let _ = print!(rt; "{}, {least}", w.total);
    }
}

// An offered tree of a policy.
pub(crate) fn tree(rt: HostRuntime, file: &[u8], offered: &[u8]) {
    tell_tree(rt, weighing::weigh(file, offered));
}
