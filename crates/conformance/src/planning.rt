// Plans: refusals that touch nothing, and the bytes of the sample.
use crate::samples::{SAMPLE_MAP, SAMPLE_PLAN, begins, xy};
use mesh::{Refusal, Sizes};
use planner::plan;
use routing::{First, MdSafe};
use std::process::Abort;
use std::test::Fail;

pub(crate) fn plan_safely(sizes: Sizes, map: &[u8], bytes: &mut [u8]) -> Result<(), Refusal> {
    plan(sizes, map, &MdSafe { order: xy()? }, &mut First, bytes)
}

// Expects a refusal that leaves the bytes, here the first `len` of 28, as they were.
fn refused(
    rt: &impl Abort,
    planes: u8,
    map: &[u8],
    len: usize,
    refusal: Refusal,
) -> Result<(), Fail> {
    let mut bytes = [7; 28];
    let front = bytes
        .get_mut(0..len)
        .ok_or_else(|| Fail::new("too many bytes"))?;
    let answer = plan_safely(Sizes::new(3, 3, planes)?, map, front);
    assert_eq!(rt; answer, Err(refusal));
    assert!(rt; begins(&bytes, &[]));
    Ok(())
}

#[test]
fn refused_plans_write_nothing(rt: HostRuntime) -> Result<(), Fail> {
    // Too short a map or too few bytes, linked or not.
    refused(&rt, 2, &[1; 8], 18, Refusal::ShortBuffer)?;
    refused(&rt, 2, &SAMPLE_MAP, 17, Refusal::ShortBuffer)?;
    refused(&rt, 2, &[0; 8], 18, Refusal::ShortBuffer)?;
    refused(&rt, 2, &[0; 9], 17, Refusal::ShortBuffer)?;
    refused(&rt, 1, &[], 8, Refusal::ShortBuffer)?;
    // No link; no byte that is 1; the only one past the gap; one gap of two.
    refused(&rt, 2, &[0; 9], 18, Refusal::GapUnlinked)?;
    refused(
        &rt,
        2,
        &[0, 0, 0, 0, 2, 0, 0, 0, 0],
        28,
        Refusal::GapUnlinked,
    )?;
    refused(
        &rt,
        2,
        &[0, 0, 0, 0, 0, 0, 0, 0, 0, 1],
        28,
        Refusal::GapUnlinked,
    )?;
    refused(
        &rt,
        3,
        &[0, 0, 0, 0, 0, 0, 0, 0, 1, 0, 0, 0, 0, 0, 0, 0, 0, 0],
        28,
        Refusal::GapUnlinked,
    )?;
    refused(
        &rt,
        3,
        &[0, 0, 0, 0, 0, 0, 0, 0, 0, 1, 0, 0, 0, 0, 0, 0, 0, 0],
        28,
        Refusal::GapUnlinked,
    )
}

// Expects the stack's bytes, with room beyond them that stays as it was.
fn planned(rt: &impl Abort, sizes: Sizes, map: &[u8], expected: &[u8]) -> Result<(), Fail> {
    let mut bytes = [7; 28];
    plan_safely(sizes, map, &mut bytes)?;
    assert!(rt; begins(&bytes, expected));
    Ok(())
}

#[test]
fn accepted_plans_write_the_routers_bytes(rt: HostRuntime) -> Result<(), Fail> {
    let mut exact = [7; 18];
    plan_safely(Sizes::new(3, 3, 2)?, &SAMPLE_MAP, &mut exact)?;
    assert_eq!(rt; exact, SAMPLE_PLAN);
    planned(
        &rt,
        Sizes::new(3, 3, 2)?,
        &[1, 0, 0, 0, 0, 0, 0, 0, 1, 1],
        &SAMPLE_PLAN,
    )?;
    // A plane alone needs no link, and has no elevator to point at.
    planned(&rt, Sizes::new(3, 2, 1)?, &[], &[0; 6])?;
    planned(&rt, Sizes::new(1, 1, 1)?, &[1], &[0])
}
