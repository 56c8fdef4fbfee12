//! Propagators of sequences without overlap: two for each constraint, which find sets of members that
//! leave no room, or that some member must come before or behind (Vilím 2007). The first asks for what
//! is found sooner.
//!
//! In what order a call asks:
//!
//! 1. in the first round, the member of which it was told, when it was asked whether it can wait, that
//!    DETECT finds something, with those behind whom it must come (`probe`, told of what has moved
//!    since; `answering`);
//! 2. whether the numbers of the members are those of the last time that nothing was found: then
//!    nothing is (`known`, `numbers`);
//! 3. on the first side, with the members in the order of their earliest starts (`orders`, `times`):
//!    in the first round OVERLOAD and then DETECT, in the later one NOTEND;
//! 4. on the other side, in the order of their latest completions with time turned round: in the
//!    first round DETECT, in the later one NOTEND; OVERLOAD isn't asked again, since no set overloads
//!    on one side alone;
//! 5. in the later round, OVERLOAD and then EDGE on the first side, and EDGE on the other.
//!
//! Each is asked of all sets at once by a pass (`passes`, over `theta_passes`), on the side that is
//! called for (`sides`). The pass gives a member and sets, or nothing; what is found is named by a
//! witness, tested by its row, and moved as far as it stays refuted, from where numbers tell how far
//! that can be (`reaches`).
#![tactic(auto)]

mod answering;
mod known;
mod numbers;
mod orders;
mod passes;
mod probe;
mod probes;
mod reaches;
mod sides;
mod table;
mod times;

pub use table::PropSets;
