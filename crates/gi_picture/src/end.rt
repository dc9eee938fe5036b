use crate::line::Line;

/// The end of a line of a chart, and where it stands, from the top.
#[derive(Clone, Copy)]
pub(crate) struct End {
    pub line: Line,
    pub place: u16,
}
