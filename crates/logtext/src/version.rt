/// The version of a log, which its first line tells. Only a log of the second begins anew.
#[derive(Clone, Copy, Debug, PartialEq, Eq)]
pub enum Version {
    One,
    Two,
}
