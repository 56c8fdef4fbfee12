/// What is kept beside a save of the region.
#[derive(Clone, Copy, Debug)]
pub struct Mark {
    /// The best value when the region was saved.
    pub best: Option<i64>,
    /// Whether the engine stopped there at its most lines, so that something may be left to derive.
    pub capped: bool,
    /// How many intervals might be open, the first ones of the list.
    pub count: usize,
}
