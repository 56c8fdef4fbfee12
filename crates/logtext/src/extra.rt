use refute_energy::{EnergyRefuter, EnergyWitness};

/// What refutes in the logs that are written and judged here, beside the kinds that every log has:
/// energies. Whoever gives logs another further kind changes these two names, and those of
/// specs/Extra.antt.
pub type LogExtra = EnergyRefuter;

/// Its witnesses.
pub type LogWitness = EnergyWitness;
