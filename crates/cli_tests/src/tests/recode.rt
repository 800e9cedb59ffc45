//! Recoding over endpoints that fail.
use super::{
    failing_at, grey_frames, has_12_000_000_left, input, left_by, same_bytes, same_count,
    same_status,
};
use mv_ends::{CleanShelf, MemSink};
use mv_terms::Status;
use std::test::Fail;

// Of 12,906,640 bytes at least 12,000,000 are left where the first write fails.
#[test]
fn a_long_file_is_not_read_ahead(rt: HostRuntime) -> Result<(), Fail> {
    let alloc = rt.alloc();
    let bytes = grey_frames(alloc, 700)?;
    same_count(&rt, bytes.len(), 12_906_640);
    let mut shelf = CleanShelf::new(input(alloc, bytes)?);
    let out = failing_at(alloc, 400, 0, usize::MAX)?;
    let say = MemSink::with_room(alloc, 40)?;
    let left = left_by(alloc, &["recode", "a"], &mut shelf, out, say)?;
    same_status(&rt, left.status, Status::WriteFault);
    same_bytes(&rt, &left.written, &[]);
    Ok(has_12_000_000_left(&rt, alloc, &mut shelf)?)
}
