//! The text of a reply.
use crate::walk::Walk;
use papaya_words::refused::Refused;
use std::fmt;

/// The printed form of a reply.
#[derive(Drop)]
pub enum Printed {
    /// There is no such entry, or there was none.
    Absent,
    /// The value that a lookup found.
    Found(u64),
    /// The value that an insertion replaced.
    Old(u64),
    /// The value that an update stored.
    New(u64),
    /// The value that a removal took out.
    Removed(u64),
    /// The number of entries.
    Length(usize),
    /// The number of slots of the root table.
    Slots(usize),
    /// The entries of an iteration.
    Walk(Walk),
    /// The call succeeded, and has nothing to print.
    Done,
    /// The reason for which the call changed nothing.
    Refused(Refused),
}

impl fmt::Display for Printed {
    ghost use Rattle.std.specs.Prelude.{Some};
    ghost use Rattle.papaya_run_lines.specs.Printed.{text_of};

    ghost output = { λ printed. Some (text_of printed) };

    fn fmt<W: fmt::Write>(&self, f: &mut fmt::Formatter<W>) -> fmt::Result {
        match self {
            Printed::Absent => f.write_str("none"),
            Printed::Found(value) => write!(f, "some {value}"),
            Printed::Old(value) => write!(f, "old {value}"),
            Printed::New(value) => write!(f, "new {value}"),
            Printed::Removed(value) => write!(f, "removed {value}"),
            Printed::Length(count) => write!(f, "len {count}"),
            Printed::Slots(count) => write!(f, "slots {count}"),
            Printed::Walk(pairs) => write!(f, "walk{pairs}"),
            Printed::Done => f.write_str("ok"),
            Printed::Refused(refused) => {
                let (number, name) = (refused.number(), refused.name());
                write!(f, "refused {number} {name}")
            }
        }
    }
}
