use region::Guess;
use sched_base::NoMemory;
use std::alloc::Global;

/// A guess that may be split by: the less room it has for its weight, the sooner; and of two alike the
/// one with the lower number.
#[derive(Clone, Copy, Debug)]
pub struct Candidate {
    pub guess: Guess,
    pub room: i64,
    pub weight: i64,
    pub number: u32,
}

/// The first few of the candidates that were offered, in their order.
#[derive(Drop)]
pub struct Shortlist {
    list: Vec<Candidate>,
    /// How many are kept.
    most: usize,
}

fn product(x: i64, y: i64) -> i128 {
    i128::from(x).saturating_mul(i128::from(y))
}

fn is_before(a: Candidate, b: Candidate) -> bool {
    let first = product(a.room, b.weight);
    let second = product(b.room, a.weight);
    first < second || (first == second && a.number < b.number)
}

impl Shortlist {
    /// A list with room for so many.
    pub fn new(alloc: Global, most: usize) -> Result<Shortlist, NoMemory> {
        let mut list = Vec::new(alloc);
        list.reserve(most)?;
        Ok(Shortlist { list, most })
    }

    /// Empties the list, to keep so many, as far as there is room.
    pub fn restart(&mut self, most: usize) {
        self.list.clear();
        self.most = most;
    }

    pub fn is_empty(&self) -> bool {
        self.list.is_empty()
    }

    /// The guess at a place.
    pub fn guess(&self, i: usize) -> Option<Guess> {
        Some(self.list.get(i)?.guess)
    }

    /// Where a candidate belongs.
    fn place(&self, candidate: Candidate) -> usize {
        let mut i = self.list.len();
        for other in self.list.iter().rev() {
            if !is_before(candidate, *other) {
                return i;
            }
            i = i.saturating_sub(1);
        }
        i
    }

    /// How many there are.
    pub fn len(&self) -> usize {
        self.list.len()
    }

    /// Puts a guess in the place of another.
    pub fn replace(&mut self, i: usize, guess: Guess) {
        if i < self.list.len() {
            self.list[i].guess = guess;
        }
    }

    /// Keeps a candidate, if it is one of the first.
    pub fn offer(&mut self, candidate: Candidate) {
        let i = self.place(candidate);
        if i >= self.most {
            return;
        }
        if self.list.len() >= self.most {
            let _ = self.list.pop();
        }
        if i <= self.list.len() {
            // There is room for as many as are kept.
            let _ = self.list.insert(i, candidate);
        }
    }

    /// Keeps a guess that is better than all others.
    pub fn put(&mut self, guess: Guess) {
        self.offer(Candidate {
            guess,
            room: i64::MIN,
            weight: 1,
            number: 0,
        });
    }
}
