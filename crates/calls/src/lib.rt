// The calls, each on what it is lent of a state: start and back on all of it, feed on all but the marks, load on the table of lifts,
// mark on the marks, the others on the parts that they read; show is given no state. The parts are parameters, in place of a struct of all:
// that would ask more of a caller, who would lend a feed the marks too.
#![tactic(auto)]

pub mod back;
pub mod feed;
pub mod fold;
pub mod lift;
pub mod load;
pub mod longest;
pub mod mark;
pub mod mask;
pub mod next;
pub mod radius;
pub mod show;
pub mod split;
pub mod start;
