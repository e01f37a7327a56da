//! A plan of how threads hash a message, or the input of an update: in parts, which are ranges of
//! leaves. The threads are the caller's. Each hashes one part after the other with
//! [`hash_leaves`](crate::hash_leaves), and writes the digests where the part says.

ghost use Rattle.std.specs.Prelude.{◌≡◌, ◌+◌, ◌-◌, ◌*◌, ◌/◌, ◌%◌, ◌^◌, ◌<◌, ◌≤◌, ◌↔◌, IsTrue};
ghost use Rattle.blake2_tree.specs.PartPlans.{AreValidLimits, threads_for, leaves_per_thread};
ghost use Rattle.blake2_tree.specs.PartPlans.{part_leaves, IsPlanOf};
ghost use Rattle.blake2_tree.specs.PartPlans.{IsConsistentPlan, IsPartAt, IsPartInOrder};
ghost use Rattle.blake2_tree.specs.PartPlans.{HasPartsWithinLimits, open_leaf_fill_length};
ghost use Rattle.blake2_tree.specs.PartPlans.{whole_leaves_length, IsPlanOfUpdate};
ghost use Rattle.blake2_tree.specs.PartPlans.{HasMessageDigests, HasLeafDigests};
ghost use Rattle.blake2_tree.specs.PartPlans.{HasWholeLeafParts, HasRestOfUpdate};
ghost use Rattle.blake2_tree.specs.PartPlans.{length_of_digests};

use crate::limits::MESSAGE_LIMIT;
use crate::ranges::leaf_count;

/// What a caller chooses: how many threads may hash, and how many bytes are worth a thread and a
/// part.
#[repr(C)]
#[derive(Clone, Copy)]
pub struct Limits {
    /// The maximum number of threads, at least 1.
    pub threads: u64,
    /// There is at most one thread for each `least_bytes` bytes, which is at least 1.
    pub least_bytes: u64,
    /// A part has at most about this number of bytes: fours of leaves, at least one four.
    pub part_bytes: u64,
    /// A part has at most this number of bytes, unless it is one leaf.
    pub most_bytes: u64,
}

/// A plan as plain numbers, so that any caller can keep it. [`Plan::is_plan`] returns whether they
/// are those of a plan, as all are that `of_message` and `of_update` have made. Offsets and lengths
/// are in bytes. The input is a head of `start` bytes, the leaves, and `rest_length` bytes after
/// them; of a message it is only the leaves.
#[repr(C)]
#[derive(Clone, Copy)]
pub struct Plan {
    /// Where the leaves begin.
    pub start: u64,
    /// Where the leaves end.
    pub end: u64,
    /// The number of bytes after the leaves.
    pub rest_length: u64,
    /// The number of bytes of a leaf, 1 to 2^32 - 1.
    pub leaf_length: u64,
    /// The number of bytes of a part: whole leaves. The last part may be shorter.
    pub part_length: u64,
    /// The number of parts: at least 1 for a message, and 0 for an update without whole leaves.
    pub part_count: u64,
    /// The number of threads that are worth their start, at most one for each part.
    pub threads: u64,
    /// The number of bytes of the digests of all parts, 64 for each leaf.
    pub digests_length: u64,
    /// 1 if the last part ends the message, otherwise 0.
    pub ends: u64,
}

/// A part of a plan: a range of leaves.
#[repr(C)]
#[derive(Clone, Copy)]
pub struct Part {
    /// The index of its first leaf, counted from the first leaf of the plan.
    pub first: u64,
    /// Where its bytes begin.
    pub start: u64,
    /// The number of its bytes.
    pub length: u64,
    /// Where its digests begin among those of all leaves of the plan.
    pub digests_start: u64,
    /// The number of bytes of its digests, 64 for each leaf.
    pub digests_length: u64,
    /// 1 if it ends the message, otherwise 0.
    pub ends: u64,
}

impl Limits {
    /// Returns whether these are limits of a plan: threads and least bytes are at least 1.
    pub fn are_limits(&self) -> bool
        ensures { IsTrue result ↔ AreValidLimits self.now }
    {
        self.threads >= 1 && self.least_bytes >= 1
    }

    // The number of threads that a plan of this number of bytes has, if there are enough parts.
    fn threads_for(&self, length: u64) -> u64
        requires { AreValidLimits self.now }
        ensures is { result ≡ threads_for self.now length }
        ensures some { 1 ≤ result }
    {
        self.threads.min((length / self.least_bytes).max(1))
    }

    // The number of leaves of a part of this number of bytes, for this number of threads.
    fn part_leaves(&self, threads: u64, leaf_length: u32, length: u64) -> u64
        requires threads { 1 ≤ threads }
        requires leaf_length { 1 ≤ leaf_length }
        requires length { length < 2 ^ 58 }
        ensures is { result ≡ part_leaves self.now threads leaf_length length }
        ensures some { 1 ≤ result }
        ensures fits { result * leaf_length < 2 ^ 60 }
    {
        let leaf = u64::from(leaf_length);
        let fours = (self.part_bytes / leaf / 4).max(1);
        let share = leaves_per_thread(leaf_count(leaf_length, length), threads);
        let leaves = (fours * 4).min(share);
        if leaves * leaf <= self.most_bytes {
            leaves
        } else {
            (self.most_bytes / leaf / 4 * 4).max(1)
        }
    }
}

// The leaves of each thread if all have the same number, and in fours if these are four or more:
// rounded up, or down if a thread would have none.
fn leaves_per_thread(leaves: u64, threads: u64) -> u64
    requires some { 1 ≤ leaves }
    requires fits { leaves < 2 ^ 58 }
    requires threads { 1 ≤ threads }
    ensures is { result ≡ leaves_per_thread leaves threads }
    ensures some { 1 ≤ result }
    ensures most { result ≤ leaves + 3 }
{
    let even = leaves.div_ceil(threads);
    if even <= 3 {
        return even;
    }
    let more = even.div_ceil(4) * 4;
    if threads <= leaves.div_ceil(more) {
        more
    } else {
        even / 4 * 4
    }
}

// The number of bytes of the digests of all leaves, if there are parts.
fn digests_length(leaf_length: u32, length: u64, part_count: u64) -> u64
    requires leaf_length { 1 ≤ leaf_length }
    requires length { length < 2 ^ 58 }
    ensures { result ≡ length_of_digests part_count leaf_length length }
{
    if part_count == 0 {
        0
    } else {
        64 * leaf_count(leaf_length, length)
    }
}

impl Plan {
    // The plan of `length` bytes of leaves from `start` on, for this number of threads. If `ends`
    // is 1 they are a message.
    fn of(
        limits: &Limits,
        threads: u64,
        leaf_length: u32,
        start: u64,
        length: u64,
        ends: u64,
    ) -> Self
        requires threads { 1 ≤ threads }
        requires leaf_length { 1 ≤ leaf_length }
        requires length { length < 2 ^ 58 }
        requires fits { start + length < 2 ^ 64 }
        requires flag { ends ≤ 1 }
        ensures whole { HasWholeLeafParts result }
        ensures is { IsPlanOf limits.now threads leaf_length start length ends result }
        ensures parts { HasPartsWithinLimits limits.now threads leaf_length length result }
        ensures rest { result.rest_length ≡ 0 }
    {
        let leaves = limits.part_leaves(threads, leaf_length, length);
        let part_length = leaves * u64::from(leaf_length);
        let part_count = length.div_ceil(part_length).max(ends);
        Plan {
            start,
            end: start + length,
            rest_length: 0,
            leaf_length: u64::from(leaf_length),
            part_length,
            part_count,
            threads: threads.min(part_count),
            digests_length: digests_length(leaf_length, length, part_count),
            ends,
        }
    }

    /// Returns the plan of a message of `length` bytes, fewer than 2^58, which begins at offset
    /// `start` of a file or a buffer. The end of the message is below offset 2^64. A leaf has
    /// `leaf_length` bytes, at least 1, and [`Limits::are_limits`] is true.
    ///
    /// If each part is hashed with its `first` and its `ends`, and the digests are joined in the
    /// order of the parts, [`root_of_leaves`](crate::root_of_leaves) returns the root of the
    /// message.
    pub fn of_message(leaf_length: u32, start: u64, length: u64, limits: &Limits) -> Self
        requires limits { AreValidLimits limits.now }
        requires leaf_length { 1 ≤ leaf_length }
        requires length { length < 2 ^ 58 }
        requires fits { start + length < 2 ^ 64 }
        ensures plan { IsConsistentPlan result }
        ensures is { IsPlanOf limits.now (threads_for limits.now length) leaf_length start length 1
            result }
        ensures parts { HasPartsWithinLimits limits.now (threads_for limits.now length) leaf_length
            length
            result }
        ensures rest { result.rest_length ≡ 0 }
        ensures digests { HasMessageDigests result }
    {
        let threads = limits.threads_for(length);
        Self::of(limits, threads, leaf_length, start, length, 1)
    }

    /// Returns the plan of the next `length` bytes of a message of which a tree has absorbed
    /// `counted` bytes, fewer than 2^58 together. The tree absorbs the head, which fills its open
    /// leaf. Then threads hash the leaves of the plan, which are whole and the tree's next ones.
    /// Then it absorbs their digests, joined in the order of the parts, and the rest
    /// ([`TreeHasher::update_leaves`](crate::TreeHasher::update_leaves)). At least one byte
    /// follows the leaves. If there are no whole leaves, there are no parts.
    ///
    /// A leaf has `leaf_length` bytes, at least 1, and [`Limits::are_limits`] is true.
    pub fn of_update(leaf_length: u32, counted: u64, length: u64, limits: &Limits) -> Self
        requires limits { AreValidLimits limits.now }
        requires leaf_length { 1 ≤ leaf_length }
        requires length { counted + length < 2 ^ 58 }
        ensures plan { IsConsistentPlan result }
        ensures is { IsPlanOf limits.now (threads_for limits.now length) leaf_length
            (open_leaf_fill_length leaf_length counted length)
            (whole_leaves_length leaf_length counted length) 0
            result }
        ensures parts { HasPartsWithinLimits limits.now (threads_for limits.now length) leaf_length
            (whole_leaves_length leaf_length counted length) result }
        ensures update { IsPlanOfUpdate leaf_length counted length result }
        ensures digests { HasLeafDigests result }
    {
        let threads = limits.threads_for(length);
        let leaf = u64::from(leaf_length);
        let head = ((leaf - counted % leaf) % leaf).min(length);
        let whole = (length - head).saturating_sub(1) / leaf * leaf;
        Plan {
            rest_length: length - head - whole,
            ..Self::of(limits, threads, leaf_length, head, whole, 0)
        }
    }

    // Whether the parts are of whole leaves.
    fn has_parts(&self) -> bool
        ensures { IsTrue result ↔ HasWholeLeafParts self.now }
    {
        self.leaf_length >= 1
            && self.leaf_length <= u64::from(u32::MAX)
            && self.part_length >= 1
            && self.part_length % self.leaf_length == 0
            && self.start <= self.end
            && self.end - self.start < MESSAGE_LIMIT
            && self.ends <= 1
            && self.part_count
                == (self.end - self.start)
                    .div_ceil(self.part_length)
                    .max(self.ends)
    }

    // Whether the leaves are those of an update.
    fn is_of_update(&self) -> bool
        requires { HasWholeLeafParts self.now }
        ensures { IsTrue result ↔ HasRestOfUpdate self.now }
    {
        self.start < self.leaf_length
            && (self.end - self.start) % self.leaf_length == 0
            && (self.start == self.end || self.rest_length >= 1)
            && self.rest_length <= self.leaf_length
            && self.end + self.rest_length < MESSAGE_LIMIT
    }

    /// Returns whether these are the numbers of a plan, as [`Plan::part`] requires: whether they
    /// agree with each other, as those of each plan do.
    pub fn is_plan(&self) -> bool
        ensures { IsTrue result ↔ IsConsistentPlan self.now }
    {
        if !self.has_parts() {
            return false;
        }
        let length = self.end - self.start;
        let room = digests_length(self.leaf_length as u32, length, self.part_count);
        if self.digests_length != room || self.threads > self.part_count {
            return false;
        }
        if self.part_count >= 1 && self.threads == 0 {
            return false;
        }
        if self.ends == 1 {
            self.rest_length == 0
        } else {
            self.is_of_update()
        }
    }

    /// Returns part `i`, which is below the number of parts. The numbers must be those of a plan.
    /// The parts are disjoint and in order, from where the leaves begin to where they end. None is
    /// empty, except that of an empty message.
    pub fn part(&self, i: u64) -> Part
        requires plan { IsConsistentPlan self.now }
        requires within { i < self.now.part_count }
        ensures is { IsPartAt self.now i result }
        ensures order { IsPartInOrder self.now i result }
    {
        let start = self.start + i * self.part_length;
        let length = self.part_length.min(self.end - start);
        let first = i * (self.part_length / self.leaf_length);
        Part {
            first,
            start,
            length,
            digests_start: 64 * first,
            digests_length: 64 * leaf_count(self.leaf_length as u32, length),
            ends: if i + 1 == self.part_count {
                self.ends
            } else {
                0
            },
        }
    }
}
