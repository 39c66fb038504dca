/// Which marks of a sector are meant: those of components of machines, or those of devices among
/// them.
#[derive(Clone, Copy)]
pub enum MarkKind {
    Component,
    Device,
}
