// Where things lie. East raises x, North raises y, Up raises z.
ghost use Rattle.std.specs.Prelude.{◌≡◌};
ghost use Rattle.mesh.specs.Layout.{foot_of, place_of};

// A place of a plane.
#[derive(Clone, Copy, Default, PartialEq, Eq, Debug)]
pub struct Place {
    pub x: u8,
    pub y: u8,
}

#[repr(C)]
#[derive(Clone, Copy, PartialEq, Eq, Debug)]
pub struct Router {
    pub x: u8,
    pub y: u8,
    pub z: u8,
}

// A vertical link of a gap: it joins (x, y) of the planes `gap` and `gap + 1`.
#[derive(Clone, Copy, PartialEq, Eq, Debug)]
pub struct Link {
    pub x: u8,
    pub y: u8,
    pub gap: u8,
}

// The place of a router within its plane.
impl From<Router> for Place {
    ghost from_gives = { λ r p. p ≡ place_of r };

    fn from(router: Router) -> Place {
        Place {
            x: router.x,
            y: router.y,
        }
    }
}

// The place of a link within its gap.
impl From<Link> for Place {
    ghost from_gives = { λ l p. p ≡ foot_of l };

    fn from(link: Link) -> Place {
        Place {
            x: link.x,
            y: link.y,
        }
    }
}
