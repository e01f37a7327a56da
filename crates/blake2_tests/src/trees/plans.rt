//! Plans for threads, at numbers that were computed by hand.

use blake2_tree::accepts;
use blake2_tree::thread_plan::{Limits, Plan};

const LIMITS: Limits = Limits {
    threads: 3,
    least_bytes: 2,
    part_bytes: 20,
    most_bytes: 100,
};

// Eleven leaves of four bytes, of which the last has one: four for each thread, and three.
#[test]
fn plan_of_eleven_leaves(rt: HostRuntime) {
    let limits = LIMITS;
    assert!(rt; limits.are_limits());
    let plan = Plan::of_message(4, 7, 41, &limits);
    assert!(rt; plan.is_plan() && plan.part_count == 3 && plan.threads == 3);
    assert!(rt; plan.start == 7 && plan.end == 48 && plan.rest_length == 0);
    assert!(rt; plan.part_length == 16 && plan.digests_length == 704 && plan.ends == 1);
    let part = plan.part(1);
    assert!(rt; part.first == 4 && part.start == 23 && part.length == 16 && part.ends == 0);
    assert!(rt; part.digests_start == 256 && part.digests_length == 256);
    let part = plan.part(2);
    assert!(rt; part.first == 8 && part.start == 39 && part.length == 9 && part.ends == 1);
    assert!(rt; part.digests_start == 512 && part.digests_length == 192);
}

// Two bytes fill the open leaf, and four come after six whole leaves, two for each thread.
#[test]
fn plan_of_update_after_an_open_leaf(rt: HostRuntime) {
    let limits = LIMITS;
    assert!(rt; limits.are_limits());
    let plan = Plan::of_update(4, 6, 30, &limits);
    assert!(rt; plan.start == 2 && plan.end == 26 && plan.rest_length == 4);
    assert!(rt; plan.part_length == 8 && plan.part_count == 3 && plan.threads == 3);
    assert!(rt; plan.digests_length == 384 && plan.ends == 0);
    let plan = Plan::of_update(4, 8, 4, &limits);
    assert!(rt; plan.start == 0 && plan.end == 0 && plan.rest_length == 4);
    assert!(rt; plan.part_count == 0 && plan.threads == 0 && plan.digests_length == 0);
}

#[test]
fn lengths_are_accepted_up_to_2_to_58(rt: HostRuntime) {
    assert!(rt; accepts(1, 0, 0, 1) && accepts(64, 16, 16, u32::MAX));
    assert!(rt; !accepts(0, 0, 0, 1) && !accepts(65, 0, 0, 1) && !accepts(1, 0, 0, 0));
    assert!(rt; !accepts(1, 17, 0, 1) && !accepts(1, 0, 17, 1));
}
