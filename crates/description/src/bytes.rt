// The byte layer: letters and bodies from the front of the input. `place` is where their record
// starts: it stands only in a fault, and so beside the input and not in a struct with it.
ghost use Rattle.std.specs.Prelude.{◌≡◌, ◌<◌, ◌∷◌, ◌++◌, length, MatchResult};
ghost use Rattle.description.specs.Bodies.{extent_body, link_body, sets_body};

use description_laws::{ByteFault, Extent, SetNumbers};
use mesh::Link;

pub(crate) fn letter(input: &[u8], place: usize) -> Result<(char, &[u8]), ByteFault>
    ensures { MatchResult result (λ v. input.now ≡ v.0 ∷ v.1.now) (λ f. (f.place ≡ place) × (length input.now ≡ 0)) }
{
    match input {
        [first, rest @ ..] => Ok((char::from(*first), rest)),
        [] => Err(ByteFault { place }),
    }
}

// A body is split by a slice pattern that names its fields: so each kind of record has a function of its own.
pub(crate) fn sizes_body(body: &[u8], place: usize) -> Result<(Extent, &[u8]), ByteFault>
    ensures { MatchResult result (λ v. body.now ≡ extent_body v.0 ++ v.1.now) (λ f. (f.place ≡ place) × (length body.now < 3)) }
{
    match body {
        [width, height, planes, rest @ ..] => Ok((
            Extent {
                width: *width,
                height: *height,
                planes: *planes,
            },
            rest,
        )),
        _ => Err(ByteFault { place }),
    }
}

pub(crate) fn order_body(body: &[u8], place: usize) -> Result<(SetNumbers, &[u8]), ByteFault>
    ensures { MatchResult result (λ v. body.now ≡ sets_body v.0 ++ v.1.now) (λ f. (f.place ≡ place) × (length body.now < 4)) }
{
    match body {
        [north, east, south, west, rest @ ..] => Ok((
            SetNumbers {
                north: *north,
                east: *east,
                south: *south,
                west: *west,
            },
            rest,
        )),
        _ => Err(ByteFault { place }),
    }
}

pub(crate) fn link_body(body: &[u8], place: usize) -> Result<(Link, &[u8]), ByteFault>
    ensures { MatchResult result (λ v. body.now ≡ link_body v.0 ++ v.1.now) (λ f. (f.place ≡ place) × (length body.now < 3)) }
{
    match body {
        [x, y, gap, rest @ ..] => Ok((
            Link {
                x: *x,
                y: *y,
                gap: *gap,
            },
            rest,
        )),
        _ => Err(ByteFault { place }),
    }
}
