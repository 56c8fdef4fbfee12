use crate::shortlist::Shortlist;
use crate::view::View;

/// A rule that picks what to split a region by.
pub trait Rule {
    /// Offers guesses by which the region may be split; none where it knows of nothing that is open.
    fn pick(&mut self, view: &View<'_>, picks: &mut Shortlist);

    /// Goes to a region that isn't a part of the one before.
    fn restart(&mut self);
}
