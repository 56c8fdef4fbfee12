//! Propagators, and the engine that runs them until none finds anything.
#![tactic(auto)]

mod both;
mod engine;
mod late;
mod laws;
mod lines;
mod propagator;
mod stops;
mod turns;
mod watchers;

pub use both::Both;
pub use engine::Engine;
pub use laws::cap_is_the_models;
pub use lines::Lines;
pub use propagator::Propagator;
pub use stops::{EngineFault, Stop};
