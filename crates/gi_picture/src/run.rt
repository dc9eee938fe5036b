/// Hours one after the other that have the same value, or none: that value; the value of the run before,
/// none where there is no such run or it has none; and the bounds of hours, from 0, before the first of
/// these hours and behind the last.
#[derive(Clone, Copy)]
pub struct Run {
    pub value: Option<u64>,
    pub previous: Option<u64>,
    pub before: u8,
    pub behind: u8,
}
