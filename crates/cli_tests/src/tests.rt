//! What the tests share: grey pictures and their frames, a run and what it left, and comparisons.
//!
//! A run and each comparison stand in functions of their own, which own little: a test that owns lists and compares them
//! itself takes several times longer to be proved.
mod cut;
mod decode;
mod recode;

ghost use Rattle.std.specs.Prelude.{◌<◌};

use mv_ends::{MemSink, Shelf};
use mv_terms::Status;
use recoder_cli::run;
use std::alloc::{AllocError, Global};
use std::process::Abort;

// The sequence header and extension of a progressive stream of 96x64 samples, 25 frames a second.
#[rattlefmt::skip]
const SEQUENCE: &[u8] = &[
    0x00, 0x00, 0x01, 0xB3, 0x06, 0x00, 0x40, 0x13, 0xFF, 0xFF, 0xE3, 0x80,
    0x00, 0x00, 0x01, 0xB5, 0x14, 0x8A, 0x00, 0x01, 0x00, 0x00,
];

// A group of pictures header.
const GROUP: &[u8] = &[0x00, 0x00, 0x01, 0xB8, 0x00, 0x08, 0x00, 0x40];

// The header and the coding extension of an I picture.
#[rattlefmt::skip]
const INTRA: &[u8] = &[
    0x00, 0x00, 0x01, 0x00, 0x00, 0x0F, 0xFF, 0xF8,
    0x00, 0x00, 0x01, 0xB5, 0x8F, 0xFF, 0xF3, 0x41, 0x80,
];

// A slice of a grey picture, one of four, behind its start code.
#[rattlefmt::skip]
const SLICE: &[u8] = &[
    0x43, 0x94, 0xA5, 0x22, 0x2E, 0x52, 0x94, 0x88, 0xB9, 0x4A, 0x52, 0x22,
    0xE5, 0x29, 0x48, 0x8B, 0x94, 0xA5, 0x22, 0x2E, 0x52, 0x94, 0x88, 0x80,
];

// The stream of so many grey I pictures: the first unit has 159 bytes, and each later one 129.
fn grey_stream(alloc: Global, pictures: usize) -> Result<Vec<u8>, AllocError> {
    let mut bytes = Vec::new(alloc);
    bytes.extend_from_slice(SEQUENCE)?;
    bytes.extend_from_slice(GROUP)?;
    for _ in 0..pictures {
        bytes.extend_from_slice(INTRA)?;
        for row in 1..5u8 {
            bytes.extend_from_slice(&[0x00, 0x00, 0x01, row])?;
            bytes.extend_from_slice(SLICE)?;
        }
    }
    Ok(bytes)
}

// The frame file of so many grey frames, in all of which each sample is 512: a header line of 40 bytes, and 18,438 bytes a
// frame.
fn grey_frames(alloc: Global, frames: usize) -> Result<Vec<u8>, AllocError> {
    let mut file = Vec::new(alloc);
    file.extend_from_slice(b"YUV4MPEG2 W96 H64 F25:1 Ip A0:0 C420p10\n")?;
    for _ in 0..frames {
        file.extend_from_slice(b"FRAME\n")?;
        for _ in 0..9216 {
            file.extend_from_slice(&[0x00, 0x02])?;
        }
    }
    Ok(file)
}

// The same frame file without its records: the low bytes of its chroma samples, which stand at even places of a frame from
// byte 12,294 on, end with zeros.
fn without_records(alloc: Global, file: &[u8]) -> Result<Vec<u8>, AllocError> {
    let mut plain = Vec::new(alloc);
    for (i, byte) in file.iter().enumerate() {
        let chroma = i >= 40 && (i % 18_438 >= 12_334 || i % 18_438 < 40);
        plain.push(if chroma && i % 2 == 0 {
            byte & 0xFC
        } else {
            *byte
        })?;
    }
    Ok(plain)
}

fn words(alloc: Global, texts: &[&str]) -> Result<Vec<String>, AllocError> {
    let mut words = Vec::new(alloc);
    for text in texts {
        words.push(String::from_str(alloc, text)?)?;
    }
    Ok(words)
}

// One input, with the name `a`.
fn input(alloc: Global, bytes: Vec<u8>) -> Result<Vec<(String, Vec<u8>)>, AllocError> {
    let mut inputs = Vec::new(alloc);
    inputs.push((String::from_str(alloc, "a")?, bytes))?;
    Ok(inputs)
}

// What a run left: its status, what it wrote, and what it said.
#[derive(Drop)]
struct Left {
    status: Status,
    written: Vec<u8>,
    said: Vec<u8>,
}

// A run of these words.
fn left_by<S: Shelf>(
    alloc: Global,
    texts: &[&str],
    shelf: &mut S,
    mut out: MemSink,
    mut say: MemSink,
) -> Result<Left, AllocError> {
    let words = words(alloc, texts)?;
    let status = run(alloc, &words, shelf, &mut out, &mut say);
    let (written, said) = (out.bytes().to_vec(alloc)?, say.bytes().to_vec(alloc)?);
    Ok(Left {
        status,
        written,
        said,
    })
}

// A sink of which this call fails, and which takes so many bytes a call.
fn failing_at(alloc: Global, room: usize, call: u64, most: usize) -> Result<MemSink, AllocError>
    requires { 0 < most }
{
    MemSink::failing(alloc, room, vec![in alloc; call; 1]?, most)
}

// The inputs have at least 12,000,000 bytes left to be read.
fn has_12_000_000_left<S: Shelf>(
    rt: &impl Abort,
    alloc: Global,
    shelf: &mut S,
) -> Result<(), AllocError> {
    let mut left = vec![in alloc; 0; 12_000_000]?;
    let read = shelf.read(&mut left).unwrap_or(0);
    same_count(rt, read, 12_000_000);
    Ok(())
}

fn same_status(rt: &impl Abort, given: Status, wanted: Status) {
    assert_eq!(rt; given, wanted);
}

fn same_bytes(rt: &impl Abort, given: &[u8], wanted: &[u8]) {
    assert_eq!(rt; given, wanted);
}

// The bytes given are the first bytes of the file, as many as this.
fn same_front(rt: &impl Abort, given: &[u8], file: &[u8], count: usize) {
    assert_eq!(rt; Some(given), file.get(..count));
}

fn same_count(rt: &impl Abort, given: usize, wanted: usize) {
    assert_eq!(rt; given, wanted);
}
