//! Why a call needs the table after one.
ghost use Rattle.std.specs.Prelude.{◌≡◌};
ghost use Rattle.papaya_call.specs.Machine.{needed};

/// The reason why a call needs the next table.
#[derive(Clone, Copy)]
pub enum Need {
    /// Room for a pair of its key: each place of the key in this table holds another key.
    Room(u64),
    /// The pair of its key, which is copied from this slot of this table.
    Pair(u64, usize),
}

impl Need {
    /// Returns the table whose next one is needed.
    #[inline(always)]
    pub fn table(self) -> u64
        ensures { result ≡ needed self }
    {
        match self {
            Need::Room(table) | Need::Pair(table, _) => table,
        }
    }
}
