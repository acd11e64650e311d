// Why something is refused, and at which offset: of bytes that are no tree, and of what turns back over one.
#[derive(Clone, Copy, PartialEq, Eq)]
pub struct Refused<W> {
    pub why: W,
    pub place: usize,
}
