//! A queue of distinct numbers below a bound, as an engine keeps of the propagators that have to
//! run again. Once it is made it takes no memory.
//!
//! `node` has the links: a node for each number, all of them in one `Vec`, which lead to one another
//! by raw pointers into it. What reads and writes through a pointer is the crate `block`. So a number
//! can leave from the middle of the queue in constant time. `linked` has the calls on them, and `queue` the
//! queue with a mark for each number.
#![tactic(auto)]

mod linked;
mod node;
mod queue;

pub use queue::WakeQueue;
