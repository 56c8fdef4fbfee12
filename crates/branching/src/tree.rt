use crate::bounds::OpenBounds;
use crate::pairs::Pairs;
use crate::presences::offer_presences;
use crate::rule::Rule;
use crate::shortlist::Shortlist;
use crate::view::View;

/// The rule of a search that is to look at everything: open presences first, then the orders of pairs
/// in sequences without overlap, and then bounds.
#[derive(Drop)]
pub struct Tree {
    pub pairs: Pairs,
    bounds: OpenBounds,
}

impl Tree {
    pub fn new(pairs: Pairs) -> Tree {
        Tree {
            pairs,
            bounds: OpenBounds::new(),
        }
    }
}

impl Rule for Tree {
    fn pick(&mut self, view: &View<'_>, picks: &mut Shortlist) {
        offer_presences(view, picks);
        if !picks.is_empty() {
            return;
        }
        self.pairs.offer(view, picks);
        if picks.is_empty() {
            self.bounds.offer(view, picks);
        }
    }

    fn restart(&mut self) {
        self.pairs.restart();
        self.bounds.restart();
    }
}
