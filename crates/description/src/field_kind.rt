// The kinds of field that a plan file is made of.
#[derive(Clone, Copy, PartialEq, Eq, Debug)]
pub enum FieldKind {
    Header,
    Resource,
    Application,
    Point,
    Activity,
    Edge,
}
