//! The script of a number, and summaries of bytes.
use super::*;
use crate::scripting::query;
use crate::stable::open_answer;
use item_slots::tag_from;
use psi_frames::Feed;
use query_codec::CodecFault;
use std::alloc::Global;
use std::process::Abort;

// The first frame of the script of 7: the Put of item 0 in session 1, without the ten bytes of its label.
const FIRST: &[u8] =
    b"\x00\x00\x00\x1e\x01\x00\x01\x00\x00\x00\x00\x0c\x00\x00\x00\x00\x00\x00\x00\x07\x00\x00\x00\x00";

#[test]
fn a_script_is_441_requests_and_three_go_frames(rt: HostRuntime) {
    let text = script(&rt, rt.alloc(), 7).ok().expect(&rt, "a script");
    assert!(rt; text.starts_with(FIRST));
    let mut feed = Feed::open(rt.alloc()).expect(&rt, "memory");
    assert!(rt; feed.feed(rt.alloc(), &text).is_ok());
    for _ in 0..444 {
        assert!(rt; feed.next().is_some());
    }
    assert!(rt; feed.next().is_none());
    assert!(rt; feed.finish().is_ok());
}

// One Added and one Replaced, an answer from a set without bundles, and an answer whose body is too short.
const ADDED: &[u8] =
    b"\x00\x00\x00\x0f\x81\x00\x01\x00\x00\x00\x01\x00\x00\x00\x00\x00\x00\x00\x00";

const REPLACED: &[u8] =
    b"\x00\x00\x00\x0f\x82\x00\x01\x00\x00\x00\x01\x00\x00\x00\x00\x00\x00\x00\x00";

const ANSWER: &[u8] =
    b"\x00\x00\x00\x19\x86\x00\x05\x00\x00\x00\x02\x00\x00\x00\x00\x00\x00\x00\x01\x01\x01\x00\x08\x01\x00\x00\x00\x00\x00";

const SHORT: &[u8] =
    b"\x00\x00\x00\x0f\x86\x00\x05\x00\x00\x00\x02\x00\x00\x00\x00\x00\x00\x00\x01";

// A Full whose body has 8 bytes in place of 16.
const SHORT_FULL: &[u8] =
    b"\x00\x00\x00\x0f\x85\x00\x01\x00\x00\x00\x01\x00\x00\x00\x00\x00\x00\x00\x00";

// The summary of replies to the script of 7.
fn summarized(
    rt: &(impl Abort + std::thread::Threads + Sync),
    alloc: Global,
    parts: &[&[u8]],
) -> Result<String, SumFault> {
    let mut bytes = Vec::new(alloc);
    for part in parts {
        bytes.extend_from_slice(part).expect(rt, "memory");
    }
    summary(rt, alloc, 7, &bytes)
}

#[test]
fn replies_are_counted(rt: HostRuntime) {
    let rows: [(&[&[u8]], &str); 3] = [
        (
            &[],
            "demo 7\nreplies 0\nadded 0\nremoved 0\nasks 0\nstable\n",
        ),
        (
            &[ADDED, REPLACED, ADDED],
            "demo 7\nreplies 3\nadded 2\nremoved 0\nasks 0\nstable\n",
        ),
        (
            &[ANSWER, ADDED, ANSWER, ANSWER, SHORT],
            "demo 7\nreplies 5\nadded 1\nremoved 0\nasks 4\nstable 0 0 0\n",
        ),
    ];
    for (parts, want) in rows {
        let text = summarized(&rt, rt.alloc(), parts)
            .ok()
            .expect(&rt, "a summary");
        assert_eq!(rt; text.as_str(), want);
    }
}

#[test]
fn torn_bytes(rt: HostRuntime) {
    let rows: [(&[&[u8]], u64); 4] = [
        (&[b"\x00"], 0),
        (&[SHORT_FULL], 0),
        (&[ADDED, SHORT_FULL, ADDED], 19),
        (&[SHORT, b"\x00\x00\x00\x0f\x05"], 19),
    ];
    for (parts, want) in rows {
        let fault = summarized(&rt, rt.alloc(), parts).err();
        assert!(rt; matches!(fault, Some(SumFault::Torn { offset }) if offset == want));
    }
}

#[test]
fn a_body_that_is_no_reply(rt: HostRuntime) {
    let fault = summarized(&rt, rt.alloc(), &[ANSWER, SHORT, ANSWER]).err();
    assert!(rt;
        matches!(
            fault,
            Some(SumFault::Codec(CodecFault::Length { want: 10 }))
        )
    );
}

// Two tags with one position, bin 7, so they have no placement.
const TAG: [u8; 22] = [
    0, 1, 0, 2, 0, 3, 0, 4, 0, 5, 0, 0, 0, 7, 0, 0, 0, 7, 0, 0, 0, 7,
];

const OTHER: [u8; 22] = [
    0, 6, 0, 7, 0, 8, 0, 9, 0, 10, 0, 0, 0, 7, 0, 0, 0, 7, 0, 0, 0, 7,
];

#[test]
fn tags_without_a_placement(rt: HostRuntime) {
    let tags = [tag_from(TAG), tag_from(OTHER)];
    match query(&rt, rt.alloc(), 7, 0, &tags) {
        Err(DemoFault::Crowded { items }) => assert!(rt; items.as_slice() == [0, 1].as_slice()),
        _ => panic!(rt; "crowded items"),
    }
    assert!(rt; matches!(open_answer(&rt, rt.alloc(), 7, 0, &tags, b""), Ok(0)));
    served_replies_are_counted();
    served_scripts_are_short();
}
