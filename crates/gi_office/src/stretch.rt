/// A life before the last one of a settled office: with how many facts its desk was opened, and how
/// many entries of the trail it has.
#[derive(Clone, Copy)]
pub(crate) struct Stretch {
    pub(crate) opening: u32,
    pub(crate) calls: usize,
}
