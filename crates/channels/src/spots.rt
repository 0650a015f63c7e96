// The records of a table.
ghost use Rattle.std.specs.Prelude.{◌≡◌, ◌<◌, true};
ghost use Rattle.mesh.specs.Layout.{in_stack};
ghost use Rattle.channel_laws.specs.Table.{record_number, table_size};

use channel_laws::Buffer;
use mesh::{Place, Router, Sizes};

// The number of records of a table.
#[tactic(auto, unfolding(channel_laws::specs::Table::table_size))]
pub fn table_size(sizes: Sizes) -> usize
    ensures { result ≡ table_size sizes }
{
    Buffer::COUNT * sizes.routers()
}

// The number of the record of a router's buffer.
#[inline(always)]
pub(crate) fn record_number(sizes: Sizes, router: Router, buffer: Buffer) -> usize
    requires { in_stack sizes router ≡ true }
    ensures value { result ≡ record_number sizes router buffer }
    ensures below { result < table_size sizes }
{
    Buffer::COUNT * sizes.index(router.z, Place::from(router)) + buffer.number()
}
