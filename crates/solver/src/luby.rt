/// The lengths of runs that are begun anew again and again, 1, 1, 2, 1, 1, 2, 4 and so on (Luby,
/// Sinclair and Zuckerman 1993; the rule from one to the next is Knuth's).
#[derive(Clone, Copy, Debug)]
pub struct Luby {
    turn: u64,
    length: u64,
}

impl Luby {
    pub fn new() -> Luby {
        Luby { turn: 1, length: 1 }
    }

    /// The next length.
    pub fn next(&mut self) -> u64 {
        let length = self.length;
        if self.turn & self.turn.wrapping_neg() == length {
            self.turn = self.turn.saturating_add(1);
            self.length = 1;
        } else {
            self.length = length.saturating_mul(2);
        }
        length
    }
}
