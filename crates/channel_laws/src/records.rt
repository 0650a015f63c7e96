// A record of the table, as C has it. Mark 0: empty, with every field 0. Mark 1: a packet. The mark is a number, since
// a table that C lends may hold any, and a damaged one is refused.
ghost use Rattle.std.specs.Prelude.{◌≡◌};
ghost use Rattle.channel_laws.specs.Table.{is_empty};

use mesh::Router;

#[repr(C)]
#[derive(Clone, Copy, PartialEq, Eq, Debug)]
pub struct Record {
    pub tag: u32,
    pub moves: u16,
    pub mark: u8,
    pub source: Router,
    pub destination: Router,
}

impl Record {
    // The record of an empty buffer.
    pub const EMPTY: Record = Record {
        tag: 0,
        moves: 0,
        mark: 0,
        source: Router { x: 0, y: 0, z: 0 },
        destination: Router { x: 0, y: 0, z: 0 },
    };

    pub fn is_empty(self) -> bool
        ensures { result ≡ is_empty «self» }
    {
        self.mark == 0
    }
}
