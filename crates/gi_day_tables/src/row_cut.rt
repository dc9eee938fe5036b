/// The place of a row that is cut, from 0; what it is cut by over the day, in kWh, at most 2^64 - 1; and
/// how many lines its cuts take.
#[derive(Clone, Copy)]
pub struct RowCut {
    pub place: usize,
    pub whole: u64,
    pub lines: usize,
}
