//! What is kept of types while a signature is read: only what their limits need.
ghost use Rattle.std.specs.Prelude.{◌≡◌};
ghost use Rattle.dbus_types.specs.Scan.{is_entry as is_entry_kind, is_basic_type as is_basic_kind, deeper as one_deeper, flat_shape, joined as joined_types, more as one_more, empty_level, with_type as with_one, all_types as all_of, array_in, struct_of, entry_of, fault_of_all};

use crate::BadSignature;

/// The maximum nesting depth of arrays, and of structs.
pub(crate) const DEEPEST: u8 = 32;

#[derive(Clone, Copy)]
pub(crate) enum Kind {
    BasicType,
    /// A variant, an array or a struct.
    Container,
    DictEntry,
}

/// How many types follow each other.
#[derive(Clone, Copy)]
pub(crate) enum Count {
    Nothing,
    One,
    Two,
    More,
}

/// The brackets around types.
#[derive(Clone, Copy)]
pub(crate) enum Bracket {
    Outside,
    Parentheses,
    Braces,
}

/// One type: whether all types in it may be where they are, and its nesting depths of arrays and of structs, up to 255.
#[derive(Clone, Copy)]
pub(crate) struct Shape {
    kind: Kind,
    complete: bool,
    arrays: u8,
    structs: u8,
}

/// Types that follow each other, none of which may be a dict entry.
#[derive(Clone, Copy)]
pub(crate) struct Others {
    complete: bool,
    arrays: u8,
    structs: u8,
}

/// The types that were read between two brackets. The first may be a dict entry that still needs its array.
#[derive(Clone, Copy)]
pub(crate) struct Level {
    bracket: Bracket,
    count: Count,
    first: Shape,
    others: Others,
}

impl Kind {
    fn is_entry(self) -> bool
        ensures { result ≡ is_entry_kind self }
    {
        matches!(self, Kind::DictEntry)
    }

    fn is_basic_type(self) -> bool
        ensures { result ≡ is_basic_kind self }
    {
        matches!(self, Kind::BasicType)
    }
}

impl Count {
    fn more(self) -> Count
        ensures { result ≡ one_more self }
    {
        match self {
            Count::Nothing => Count::One,
            Count::One => Count::Two,
            Count::Two | Count::More => Count::More,
        }
    }
}

impl Shape {
    pub(crate) fn flat(kind: Kind) -> Shape
        ensures { result ≡ flat_shape kind }
    {
        Shape {
            kind,
            complete: true,
            arrays: 0,
            structs: 0,
        }
    }

    fn joined(self, others: Others) -> Others
        ensures { result ≡ joined_types self others }
    {
        Others {
            complete: self.complete && !self.kind.is_entry() && others.complete,
            arrays: self.arrays.max(others.arrays),
            structs: self.structs.max(others.structs),
        }
    }
}

impl Level {
    /// The level outside all brackets, without types.
    pub(crate) const OUTSIDE: Level = Level {
        bracket: Bracket::Outside,
        count: Count::Nothing,
        first: Shape {
            kind: Kind::BasicType,
            complete: true,
            arrays: 0,
            structs: 0,
        },
        others: Others {
            complete: true,
            arrays: 0,
            structs: 0,
        },
    };

    /// The initial value of an array of levels: all zeros, which is quickest.
    pub(crate) const UNUSED: Level = Level {
        bracket: Bracket::Outside,
        count: Count::Nothing,
        first: Shape {
            kind: Kind::BasicType,
            complete: false,
            arrays: 0,
            structs: 0,
        },
        others: Others {
            complete: false,
            arrays: 0,
            structs: 0,
        },
    };

    pub(crate) fn empty(bracket: Bracket) -> Level
        ensures { result ≡ empty_level bracket }
    {
        Level {
            bracket,
            ..Level::OUTSIDE
        }
    }

    pub(crate) fn all_types(self) -> Others
        ensures { result ≡ all_of self }
    {
        self.first.joined(self.others)
    }

    // Adds a type before those that were read.
    pub(crate) fn with_type(self, first: Shape) -> Level
        ensures { result ≡ with_one first self }
    {
        Level {
            bracket: self.bracket,
            count: self.count.more(),
            first,
            others: self.all_types(),
        }
    }

    // Makes the first type an array's element.
    pub(crate) fn array(self) -> Option<Level>
        ensures { result ≡ array_in self }
    {
        let arrays = deeper(self.first.arrays);
        let first = Shape {
            kind: Kind::Container,
            arrays,
            ..self.first
        };
        match self.count {
            Count::Nothing => None,
            Count::One | Count::Two | Count::More => Some(Level { first, ..self }),
        }
    }

    // The struct with these types.
    pub(crate) fn as_struct(self) -> Option<Shape>
        ensures { result ≡ struct_of self }
    {
        let all = self.all_types();
        let shape = Shape {
            kind: Kind::Container,
            complete: all.complete,
            arrays: all.arrays,
            structs: deeper(all.structs),
        };
        match (self.bracket, self.count) {
            (Bracket::Parentheses, Count::One | Count::Two | Count::More) => Some(shape),
            _ => None,
        }
    }

    // The dict entry with these types. Its key, if it is basic, has no arrays and no structs.
    pub(crate) fn as_entry(self) -> Option<Shape>
        ensures { result ≡ entry_of self }
    {
        let complete = self.first.kind.is_basic_type() && self.others.complete;
        let shape = Shape {
            kind: Kind::DictEntry,
            complete,
            arrays: self.others.arrays,
            structs: self.others.structs,
        };
        match (self.bracket, self.count) {
            (Bracket::Braces, Count::Two) => Some(shape),
            _ => None,
        }
    }
}

impl Others {
    pub(crate) fn fault(self) -> Option<BadSignature>
        ensures { result ≡ fault_of_all self }
    {
        if !self.complete {
            Some(BadSignature::Form)
        } else if self.arrays <= DEEPEST && self.structs <= DEEPEST {
            None
        } else {
            Some(BadSignature::Depth)
        }
    }
}

fn deeper(depth: u8) -> u8
    ensures { result ≡ one_deeper depth }
{
    depth.saturating_add(1)
}
