ghost use Rattle.std.specs.Prelude.{◌≡◌};
ghost use Rattle.t3_undo.specs.Inner.OptionalHolder.{holder_of};

use t3_holder::Holder;

/// A holder or none, in the room of a holder. An `Option` of one takes four bytes more.
#[derive(Clone, Copy)]
pub(crate) enum OptionalHolder {
    Absent,
    Nil,
    True,
    Int(i32),
    Enum(u32),
    Prop(u16),
    Obj(u32),
    Text(u32),
    Shown(u32),
    List(u32),
    Code(u32),
    Func(u32),
}

impl OptionalHolder {
    #[inline(always)]
    pub(crate) fn of(holder: Option<Holder>) -> OptionalHolder
        ensures { holder_of result ≡ holder }
    {
        match holder {
            None => OptionalHolder::Absent,
            Some(Holder::Nil) => OptionalHolder::Nil,
            Some(Holder::True) => OptionalHolder::True,
            Some(Holder::Int(number)) => OptionalHolder::Int(number),
            Some(Holder::Enum(number)) => OptionalHolder::Enum(number),
            Some(Holder::Prop(number)) => OptionalHolder::Prop(number),
            Some(Holder::Obj(number)) => OptionalHolder::Obj(number),
            Some(Holder::Text(address)) => OptionalHolder::Text(address),
            Some(Holder::Shown(address)) => OptionalHolder::Shown(address),
            Some(Holder::List(address)) => OptionalHolder::List(address),
            Some(Holder::Code(address)) => OptionalHolder::Code(address),
            Some(Holder::Func(address)) => OptionalHolder::Func(address),
        }
    }

    #[inline(always)]
    pub(crate) fn holder(self) -> Option<Holder>
        ensures { result ≡ holder_of self }
    {
        match self {
            OptionalHolder::Absent => None,
            OptionalHolder::Nil => Some(Holder::Nil),
            OptionalHolder::True => Some(Holder::True),
            OptionalHolder::Int(number) => Some(Holder::Int(number)),
            OptionalHolder::Enum(number) => Some(Holder::Enum(number)),
            OptionalHolder::Prop(number) => Some(Holder::Prop(number)),
            OptionalHolder::Obj(number) => Some(Holder::Obj(number)),
            OptionalHolder::Text(address) => Some(Holder::Text(address)),
            OptionalHolder::Shown(address) => Some(Holder::Shown(address)),
            OptionalHolder::List(address) => Some(Holder::List(address)),
            OptionalHolder::Code(address) => Some(Holder::Code(address)),
            OptionalHolder::Func(address) => Some(Holder::Func(address)),
        }
    }
}
