// A crowded stack: 48 links in each gap, a packet at every router, and rounds in which every router tries each of its
// buffers at each port.
use channel_laws::{Buffer, Call, Port};
use mesh::{Place, Router, Sizes};
use std::alloc::{AllocError, Global};

const ROUNDS: usize = 12;

// The link map: in each row of a gap every twelfth place, a few places on from row to row and from gap to gap.
pub(crate) fn links(heap: Global, sizes: Sizes) -> Result<Vec<u8>, AllocError> {
    let mut map = Vec::new(heap);
    for gap in 0..sizes.gaps() {
        for i in 0..sizes.area() {
            let Place { x, y } = sizes.place_at(i);
            let linked = (usize::from(x) + 5 * usize::from(y) + 3 * gap) % 12 == 0;
            map.push(u8::from(linked))?;
        }
    }
    Ok(map)
}

// The router that lies opposite, seen from the middle of the stack.
fn opposite(sizes: Sizes, router: Router) -> Router {
    Router {
        x: (sizes.width - 1).saturating_sub(router.x),
        y: (sizes.height - 1).saturating_sub(router.y),
        z: (sizes.planes - 1).saturating_sub(router.z),
    }
}

// Every port of a buffer, and then to collect from it.
fn try_buffer(calls: &mut Vec<Call>, router: Router, buffer: u8) -> Result<(), AllocError> {
    for port in 0..Port::COUNT as u8 {
        calls.push(Call::Move {
            router,
            buffer,
            port,
        })?;
    }
    calls.push(Call::Collect { router, buffer })?;
    Ok(())
}

fn try_router(calls: &mut Vec<Call>, router: Router) -> Result<(), AllocError> {
    for buffer in 0..Buffer::COUNT as u8 {
        try_buffer(calls, router, buffer)?;
    }
    Ok(())
}

// A packet from every router to the one opposite, and then the rounds.
pub(crate) fn crowd(heap: Global, sizes: Sizes) -> Result<Vec<Call>, AllocError> {
    let mut calls = Vec::new(heap);
    for i in 0..sizes.routers() {
        let source = sizes.router_at(i);
        calls.push(Call::Inject {
            source,
            destination: opposite(sizes, source),
            tag: i as u32,
        })?;
    }
    for i in 0..sizes.routers() * ROUNDS {
        try_router(&mut calls, sizes.router_at(i))?;
    }
    Ok(calls)
}
