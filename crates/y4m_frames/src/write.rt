//! Frame files are written: their header line, and their frames.
ghost use Rattle.std.specs.Prelude.{◌≡◌};
ghost use Rattle.mv_ends.specs.Sends.{Sends};
ghost use Rattle.y4m_frames.specs.FrameFile.{header_line, frame, scan};

use itoa::Buffer;
use mv_ends::{Failed, Sink, send_all};
use mv_terms::FrameHeader;

/// Writes the header line of a frame file. It fails only where the sink does, and then a proper
/// front of the line was written.
pub fn write_header<O: Sink>(header: &FrameHeader, out: &mut O) -> Result<(), Failed>
    ensures { Sends (O.told out.old) (O.told out.new) (header_line header.now) result }
{
    let (mut wide, mut high) = (Buffer::new(), Buffer::new());
    let (mut frames, mut seconds) = (Buffer::new(), Buffer::new());
    send_all(
        out,
        &[
            "YUV4MPEG2 W".as_bytes(),
            wide.format(header.wide).as_bytes(),
            " H".as_bytes(),
            high.format(header.high).as_bytes(),
            " F".as_bytes(),
            frames.format(header.rate_num).as_bytes(),
            ":".as_bytes(),
            seconds.format(header.rate_den).as_bytes(),
            " I".as_bytes(),
            scan(header.progressive, header.bottom_first).as_bytes(),
            " A0:0 C420p10\n".as_bytes(),
        ],
    )
}

/// Writes a frame, whose samples are 16-bit numbers with the low byte first: Y, Cb and Cr, each in
/// raster order. It fails only where the sink does, and then a proper front of the frame was
/// written.
pub fn write_frame<O: Sink>(samples: &[u8], out: &mut O) -> Result<(), Failed>
    ensures { Sends (O.told out.old) (O.told out.new) (frame samples.now) result }
{
    send_all(out, &["FRAME\n".as_bytes(), samples])
}

/// The letter of the scan: progressive, or the field that comes first.
fn scan(progressive: bool, bottom_first: bool) -> &'static str
    ensures { result.now ≡ scan progressive bottom_first }
{
    match (progressive, bottom_first) {
        (true, _) => "p",
        (false, true) => "b",
        (false, false) => "t",
    }
}
