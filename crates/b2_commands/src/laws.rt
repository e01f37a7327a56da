//! A law: `b2 root` reads what `b2 leaves` prints.

ghost use Rattle.b2_commands.specs.LeafLaws.{RootReadsLeaves};

/// Does nothing. Its contract says that `root` prints what `tree` prints for a message, if it reads
/// the lines that `leaves` prints for its parts, in order. The message may be cut into parts at any
/// boundaries of its leaves.
pub fn root_reads_leaves()
    ensures { RootReadsLeaves }
{}
