use region::CellName;
use sched_base::Itv;

/// The interval of which a cell is, if it is of one alone.
pub fn interval_of(cell: CellName) -> Option<Itv> {
    match cell {
        CellName::Presence(x) => Some(x),
        CellName::StartMin(x) => Some(x),
        CellName::StartMax(x) => Some(x),
        CellName::EndMin(x) => Some(x),
        CellName::EndMax(x) => Some(x),
        CellName::Order(_, _, _) => None,
    }
}
