// MD-safe against a search of its own: the smallest distance first, and then the last link that has it. Planes are
// 24 columns wide, and a place of a plane is its index, row by row.
use crate::planning::plan_safely;
use mesh::Sizes;
use std::cmp::Ordering;
use std::process::Abort;
use std::test::Fail;

const COLUMNS: usize = 24;

fn distance(a: usize, b: usize) -> usize {
    let across = (a % COLUMNS).abs_diff(b % COLUMNS);
    let along = (a / COLUMNS).abs_diff(b / COLUMNS);
    across.saturating_add(along)
}

// The last place with a link whose distance is the smallest, or the place itself where there is no link.
fn last_nearest(links: &[u8], place: usize) -> usize {
    let linked = |i: &usize| links.get(*i) == Some(&1);
    // The first of them from the end is the last.
    let nearest = (0..links.len())
        .rev()
        .filter(linked)
        .min_by_key(|i| distance(*i, place));
    nearest.unwrap_or(place)
}

// North is 1, East 2, South 4 and West 8.
fn pointing(from: usize, to: usize) -> u8 {
    let along = match (to / COLUMNS).cmp(&(from / COLUMNS)) {
        Ordering::Greater => 1,
        Ordering::Less => 4,
        Ordering::Equal => 0,
    };
    let across = match (to % COLUMNS).cmp(&(from % COLUMNS)) {
        Ordering::Greater => 2,
        Ordering::Less => 8,
        Ordering::Equal => 0,
    };
    along | across
}

fn half(links: &[u8], place: usize) -> u8 {
    if links.is_empty() {
        return 0;
    }
    pointing(place, last_nearest(links, place))
}

// Compares a plane's bytes with the links above it and below it; no links where there is no gap.
fn compare(rt: &impl Abort, bytes: &[u8], above: &[u8], below: &[u8]) {
    for (place, byte) in bytes.iter().enumerate() {
        assert_eq!(rt; *byte & 15, half(above, place), "{}", place);
        assert_eq!(rt; *byte >> 4, half(below, place), "{}", place);
    }
}

// Marks places of a link map that is whole planes of 24 rows.
fn mark(map: &mut [u8], gap: usize, places: &[(usize, usize)]) -> Result<(), Fail> {
    for (x, y) in places {
        let row = gap.wrapping_mul(24).wrapping_add(*y);
        let place = row.wrapping_mul(COLUMNS).wrapping_add(*x);
        *map.get_mut(place)
            .ok_or_else(|| Fail::new("no such place"))? = 1;
    }
    Ok(())
}

#[test]
fn every_router_points_at_its_last_nearest_link(rt: HostRuntime) -> Result<(), Fail> {
    let mut map = [0; 1152];
    mark(
        &mut map,
        0,
        &[(0, 0), (23, 1), (5, 5), (9, 5), (9, 9), (12, 20), (23, 23)],
    )?;
    mark(&mut map, 1, &[(11, 0), (0, 11), (22, 11), (11, 22)])?;
    // A byte other than 1 is no link: here in the midst of the four.
    map[851] = 3;
    let mut bytes = [0x77; 1728];
    plan_safely(Sizes::new(24, 24, 3)?, &map, &mut bytes)?;
    compare(&rt, &bytes[0..576], &map[0..576], &[]);
    compare(&rt, &bytes[576..1152], &map[576..1152], &map[0..576]);
    compare(&rt, &bytes[1152..1728], &[], &map[576..1152]);
    Ok(())
}
