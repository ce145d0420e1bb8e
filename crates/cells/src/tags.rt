// The seven types of an object.
ghost use Rattle.cells.specs.Tags.{Decodes};

#[derive(Clone, Copy, Debug, PartialEq, Eq)]
pub enum Tag {
    Nat = 1,
    Int = 2,
    Bitv = 3,
    Bool = 4,
    Addr = 5,
    Pc = 6,
    Subr = 7,
}

#[derive(Clone, Copy, Debug, PartialEq, Eq)]
pub struct UnknownTag(pub u8);

impl TryFrom<u8> for Tag {
    type Error = UnknownTag;

    ghost try_from_gives = { Decodes };

    fn try_from(tag: u8) -> Result<Self, UnknownTag> {
        match tag {
            1 => Ok(Tag::Nat),
            2 => Ok(Tag::Int),
            3 => Ok(Tag::Bitv),
            4 => Ok(Tag::Bool),
            5 => Ok(Tag::Addr),
            6 => Ok(Tag::Pc),
            7 => Ok(Tag::Subr),
            _ => Err(UnknownTag(tag)),
        }
    }
}
