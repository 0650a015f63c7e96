// Sizes and turn orders exist only in range.
use mesh::{Refusal, Sizes, TurnOrder};

// The columns, rows and planes of sizes that are made.
fn sizes(width: u8, height: u8, planes: u8) -> Result<(u8, u8, u8), Refusal> {
    let sizes = Sizes::new(width, height, planes)?;
    Ok((sizes.width, sizes.height, sizes.planes))
}

// The sets of a turn order that is made.
fn sets(north: u8, east: u8, south: u8, west: u8) -> Result<[u8; 4], Refusal> {
    let order = TurnOrder::new(north, east, south, west)?;
    Ok([order.north, order.east, order.south, order.west])
}

// What is made as asked where a value is in range.
fn expected<T: Drop>(made: T, value: u8, most: u8) -> Result<T, Refusal> {
    if (1..=most).contains(&value) {
        Ok(made)
    } else {
        Err(Refusal::OutOfRange)
    }
}

#[test]
fn sizes_from_one_to_their_limits(rt: HostRuntime) {
    for value in 0..=255u8 {
        let columns = expected((value, 24, 8), value, 24);
        assert_eq!(rt; sizes(value, 24, 8), columns, "{}", value);
        let rows = expected((1, value, 1), value, 24);
        assert_eq!(rt; sizes(1, value, 1), rows, "{}", value);
        let planes = expected((24, 24, value), value, 8);
        assert_eq!(rt; sizes(24, 24, value), planes, "{}", value);
    }
}

#[test]
fn turn_orders_of_two_sets(rt: HostRuntime) {
    for above in 2..=255u8 {
        assert_eq!(rt; sets(above, 0, 0, 1), Err(Refusal::OutOfRange));
        assert_eq!(rt; sets(0, above, 0, 1), Err(Refusal::OutOfRange));
        assert_eq!(rt; sets(0, 1, above, 0), Err(Refusal::OutOfRange));
        assert_eq!(rt; sets(0, 1, 0, above), Err(Refusal::OutOfRange));
        assert_eq!(rt; sets(above, above, above, above), Err(Refusal::OutOfRange));
    }
    assert_eq!(rt; sets(0, 0, 0, 0), Err(Refusal::OneSet));
    assert_eq!(rt; sets(1, 1, 1, 1), Err(Refusal::OneSet));
    assert_eq!(rt; sets(0, 0, 0, 1), Ok([0, 0, 0, 1]));
    assert_eq!(rt; sets(1, 0, 0, 0), Ok([1, 0, 0, 0]));
    assert_eq!(rt; sets(1, 0, 1, 0), Ok([1, 0, 1, 0]));
    assert_eq!(rt; sets(1, 1, 0, 1), Ok([1, 1, 0, 1]));
}
