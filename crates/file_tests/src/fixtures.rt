//! Frame files of 16x16 samples, and inputs by name.
use std::alloc::{AllocError, Global};

pub const HEADER: &[u8] = b"YUV4MPEG2 W16 H16 F25:1 Ip A0:0 C420p10\n";

/// Adds a frame behind this line, all of whose samples are 256 times this number.
pub fn push_frame(file: &mut Vec<u8>, line: &[u8], high: u8) -> Result<(), AllocError> {
    file.extend_from_slice(line)?;
    for _ in 0..384 {
        file.extend_from_slice(&[0, high])?;
    }
    Ok(())
}

/// A header line, and such frames.
pub fn frame_file(alloc: Global, header: &[u8], frames: &[u8]) -> Result<Vec<u8>, AllocError> {
    let mut file = header.to_vec(alloc)?;
    for high in frames {
        push_frame(&mut file, b"FRAME\n", *high)?;
    }
    Ok(file)
}

/// An input of this name and these bytes.
pub fn input(alloc: Global, name: &str, bytes: &[u8]) -> Result<(String, Vec<u8>), AllocError> {
    Ok((String::from_str(alloc, name)?, bytes.to_vec(alloc)?))
}

/// Inputs of these names and bytes, in this order.
pub fn inputs(
    alloc: Global,
    files: &[(&str, &[u8])],
) -> Result<Vec<(String, Vec<u8>)>, AllocError> {
    let mut inputs = Vec::new(alloc);
    for (name, bytes) in files {
        inputs.push(input(alloc, name, bytes)?)?;
    }
    Ok(inputs)
}
