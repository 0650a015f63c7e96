// The ports that a packet is permitted.
ghost use Rattle.std.specs.Prelude.{◌≡◌, ◌-◌, []};
ghost use Rattle.channel_laws.specs.Ports.{gap_of, half_of, is_elevator, permitted_ports, side_of, way_to};
ghost use Rattle.channels.specs.Results.{state_of};

use crate::held::Held;
use crate::stacks::PlannedStack;
use channel_laws::{Buffer, Ports};
use mesh::{Direction, Directions, LINK, Place, Router, Trip, Way};
use routing::{Guide, Request};

fn side_of(buffer: Buffer) -> Option<Direction>
    ensures { result ≡ side_of buffer }
{
    match buffer {
        Buffer::Side(_, side) => Some(side),
        _ => None,
    }
}

fn way_to(from: u8, to: u8) -> Way
    ensures { result ≡ way_to from to }
{
    if from < to { Way::Up } else { Way::Down }
}

// The gap that a way crosses from a plane.
fn gap_of(way: Way, z: u8) -> u8
    ensures { result ≡ gap_of way z }
{
    match way {
        Way::Up => z,
        Way::Down => z.saturating_sub(1),
    }
}

impl PlannedStack<'_> {
    // Whether a router is an elevator for a way.
    fn is_elevator(&self, way: Way, router: Router) -> bool
        ensures { result ≡ is_elevator (state_of self.now []) way router }
    {
        let index = self.sizes.index(gap_of(way, router.z), Place::from(router));
        self.map.get(index) == Some(&LINK)
    }

    // The half-byte of a router for a way.
    fn half_of(&self, way: Way, router: Router) -> u8
        ensures { result ≡ half_of (state_of self.now []) way router }
    {
        let index = self.sizes.index(router.z, Place::from(router));
        way.half(self.bytes.get(index).copied().unwrap_or(0))
    }

    // The ports that a packet is permitted.
    #[inline(always)]
    pub(crate) fn permitted_ports<G: Guide>(&self, guide: &G, held: Held) -> Ports
        ensures { result ≡ permitted_ports (G.reply guide.now) (state_of self.now []) held.router held.buffer held.packet }
    {
        let Router { z, .. } = held.router;
        let destination = held.packet.destination;
        if held.router == destination {
            return Ports::planar_only(Directions::NONE);
        }
        let bound = Request {
            sizes: self.sizes,
            place: Place::from(held.router),
            half: 0,
            destination: Place::from(destination),
            side: side_of(held.buffer),
            trip: Trip::Bound,
        };
        if z == destination.z {
            return Ports::planar_only(guide.permits(bound));
        }
        let way = way_to(z, destination.z);
        if self.is_elevator(way, held.router) {
            return Ports::way_only(way);
        }
        Ports::planar_only(guide.permits(Request {
            half: self.half_of(way, held.router),
            trip: Trip::Seeking,
            ..bound
        }))
    }
}
