// Which field may follow which.
ghost use Rattle.std.specs.Prelude.{◌≡◌};
ghost use Rattle.description.specs.Forms.{field_size, next_kind};

use crate::field_kind::FieldKind;
use fields::{HEADER_LEN, Record};
use records::{Activity, ApplicationField, Edge, Header, Point, Resource};

impl FieldKind {
    // The kind of field that a tag begins after a field of this kind; none where the tag is not allowed there.
    pub fn next(self, tag: u8) -> Option<FieldKind>
        ensures { result ≡ next_kind self tag }
    {
        match (self, tag) {
            (Self::Header | Self::Resource, Resource::TAG) => Some(Self::Resource),
            (Self::Resource | Self::Point, ApplicationField::TAG) => Some(Self::Application),
            (Self::Application | Self::Point, Point::TAG) => Some(Self::Point),
            (Self::Point | Self::Activity, Activity::TAG) => Some(Self::Activity),
            (Self::Activity | Self::Edge, Edge::TAG) => Some(Self::Edge),
            _ => None,
        }
    }

    // How many bytes such a field has: its header and its body.
    pub fn size(self) -> usize
        ensures { result ≡ field_size self }
    {
        let len = match self {
            Self::Header => Header::LEN,
            Self::Resource => Resource::LEN,
            Self::Application => ApplicationField::LEN,
            Self::Point => Point::LEN,
            Self::Activity => Activity::LEN,
            Self::Edge => Edge::LEN,
        };
        HEADER_LEN + usize::from(len)
    }
}
