// The four sorts of record, each in a section of its own.
#[derive(Clone, Copy)]
pub(crate) enum Sort {
    Signal,
    Switch,
    Straight,
    PointSection,
}
