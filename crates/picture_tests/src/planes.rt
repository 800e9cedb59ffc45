//! `mv_planes`: what no clause says of sizes, and that written samples are the ones that are read.
use crate::comparison::same;
use crate::fixtures::samples_but;
use mv_planes::{Picture, Plane};
use std::process::Abort;
use std::test::Fail;

/// So many samples of each plane aren't 128.
pub fn has_written(rt: &impl Abort, pic: &Picture, y: usize, cb: usize, cr: usize) {
    let planes = [Plane::Y, Plane::Cb, Plane::Cr];
    assert_eq!(rt;
        planes.map(|plane| samples_but(pic, plane, 128)),
        [y, cb, cr]
    );
}

fn has_size(rt: &impl Abort, pic: &Picture, plane: Plane, wide: usize, high: usize) {
    assert_eq!(rt; pic.height(plane), high);
    for y in 0..pic.height(plane) {
        assert_eq!(rt; pic.row(plane, y).len(), wide);
    }
}

#[test]
fn a_grey_picture_has_128_at_every_place_of_its_planes(rt: HostRuntime) -> Result<(), Fail> {
    let pic = Picture::grey(rt.alloc(), 3, 2)?;
    has_size(&rt, &pic, Plane::Y, 48, 32);
    has_size(&rt, &pic, Plane::Cb, 24, 16);
    has_size(&rt, &pic, Plane::Cr, 24, 16);
    has_written(&rt, &pic, 0, 0, 0);
    Ok(())
}

#[test]
fn a_picture_of_the_largest_size_is_made(rt: HostRuntime) -> Result<(), Fail> {
    let pic = Picture::grey(rt.alloc(), 120, 72)?;
    same(&rt, &(pic.mb_wide(), pic.mb_high()), &(120, 72));
    Ok(())
}

#[test]
fn samples_that_are_lent_stand_plane_after_plane(rt: HostRuntime) -> Result<(), Fail> {
    let mut pic = Picture::grey(rt.alloc(), 1, 1)?;
    for v in pic.samples_mut().iter_mut().skip(320) {
        *v = 5;
    }
    has_written(&rt, &pic, 0, 0, 64);
    same(&rt, &pic.sample(Plane::Cr, 7, 7), &5);
    Ok(())
}
