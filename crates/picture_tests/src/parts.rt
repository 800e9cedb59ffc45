//! `mv_planes`: parts of a picture that are lent, and the samples that stand there.
use crate::comparison::same;
use crate::planes::has_written;
use mv_planes::{Picture, Plane, part_at};
use std::test::Fail;

#[test]
fn a_block_of_one_field_writes_every_other_line(rt: HostRuntime) -> Result<(), Fail> {
    let mut pic = Picture::grey(rt.alloc(), 2, 1)?;
    let mut part = pic.block8_mut(Plane::Y, 16, 1, 2);
    for row in 0..8 {
        for col in 0..8 {
            part.set(row, col, 7);
        }
    }
    same(&rt, &part.get(7, 7), &7);
    has_written(&rt, &pic, 64, 0, 0);
    Ok(())
}

#[test]
fn a_written_block_is_read_again(rt: HostRuntime) -> Result<(), Fail> {
    let mut pic = Picture::grey(rt.alloc(), 2, 1)?;
    let part = part_at(true, 1, 0, 3);
    let mut block = [7; 64];
    block[9] = 8;
    pic.put_block(part, &block);
    same(&rt, &pic.block(part), &block);
    has_written(&rt, &pic, 64, 0, 0);
    same(&rt, &pic.sample(Plane::Y, 25, 3), &8);
    Ok(())
}

#[test]
fn a_written_row_is_a_line_of_its_field(rt: HostRuntime) -> Result<(), Fail> {
    let mut pic = Picture::grey(rt.alloc(), 1, 1)?;
    for v in pic.row_mut(Plane::Cr, 3) {
        *v = 9;
    }
    has_written(&rt, &pic, 0, 0, 8);
    same(&rt, &pic.field_view(Plane::Cr, true).sample(5, 1), &9);
    same(&rt, &pic.field_view(Plane::Cr, false).sample(5, 1), &128);
    same(&rt, &pic.block8(Plane::Cr, 0, 0, 1).get(3, 5), &9);
    same(&rt, &pic.sample(Plane::Cr, 5, 3), &9);
    Ok(())
}
