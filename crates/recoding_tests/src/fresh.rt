//! `enc_fresh`: the headers of a worked stream, and frame rates.
use crate::fixtures::FILE;
use enc_fresh::{default_context, fresh_decisions, fresh_head, is_progressive};
use mv_bits::CompareWith;
use mv_heads::{write_context, write_gop, write_head};
use mv_terms::{Decision, FrameHeader, PicType};

// The headers of the example: of 96x64 luma samples, progressive, 25 frames a second, and an I picture without B
// pictures in front of it.
const HEADERS: &[u8] = b"\x00\x00\x01\xB3\x06\x00\x40\x13\xFF\xFF\xE3\x80\
    \x00\x00\x01\xB5\x14\x8A\x00\x01\x00\x00\
    \x00\x00\x01\xB8\x00\x08\x00\x40\
    \x00\x00\x01\x00\x00\x0F\xFF\xF8\
    \x00\x00\x01\xB5\x8F\xFF\xF3\x41\x80";

#[test]
fn the_headers_of_a_fresh_stream_are_those_of_the_example(rt: HostRuntime) {
    let context = default_context(&FILE);
    let head = fresh_head(&FILE, &context, PicType::I, 0);
    let mut compare = CompareWith::new(HEADERS, 0);
    write_context(&context, &mut compare);
    write_gop(true, &mut compare);
    write_head(&head, head.top_first, is_progressive(&FILE), &mut compare);
    assert!(rt; compare.equal());
}

// Rates, and frame_rate_code with frame_rate_extension_n and _d: the eight of H.262, table 6-4, and some that aren't
// reduced, that need the extension, that headers can't say, or that a file doesn't name.
#[rattlefmt::skip]
const RATES: [((u32, u32), [u8; 3]); 15] = [
    ((24000, 1001), [1, 0, 0]), ((24, 1), [2, 0, 0]), ((25, 1), [3, 0, 0]),
    ((30000, 1001), [4, 0, 0]), ((30, 1), [5, 0, 0]), ((50, 1), [6, 0, 0]),
    ((60000, 1001), [7, 0, 0]), ((60, 1), [8, 0, 0]),
    ((100, 4), [3, 0, 0]), ((15, 1), [5, 0, 1]), ((12, 1), [2, 0, 1]), ((100, 1), [6, 1, 0]),
    ((999_999_999, 1), [3, 0, 0]), ((2997, 100), [3, 0, 0]), ((0, 0), [3, 0, 0]),
];

#[test]
fn the_rate_is_that_of_the_file_where_headers_can_say_it(rt: HostRuntime) {
    for ((rate_num, rate_den), rate) in RATES {
        assert!(rt; (rate_num == 0) == (rate_den == 0));
        assert!(rt; rate_num < 1_000_000_000 && rate_den < 1_000_000_000);
        let file = FrameHeader {
            rate_num,
            rate_den,
            ..FILE
        };
        let context = default_context(&file);
        assert_eq!(rt; [context.rate_code, context.rate_n, context.rate_d], rate);
    }
}

#[test]
fn each_row_is_a_slice_of_intra_macroblocks(rt: HostRuntime) {
    let head = fresh_head(&FILE, &default_context(&FILE), PicType::B, 1023);
    let mut decisions = [Decision::NONE; 24];
    fresh_decisions(&head, 8, &mut decisions);
    for (k, decision) in decisions.iter().enumerate() {
        assert!(rt; decision.intra && !decision.quant && decision.scale == 8);
        assert_eq!(rt; decision.slice_start, k % 6 == 0);
        assert_eq!(rt; decision.head_scale, if k % 6 == 0 { 8 } else { 0 });
    }
}
