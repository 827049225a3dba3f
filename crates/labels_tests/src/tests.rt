// Edges of the two kinds: the smallest and the largest label, the last tick, an input that is one byte short;
// the kinds by their numbers; and a kind whose order is not that of its `Ord`.
use crate::ranked::Rank;
use labels::fault::{Fault, Reader};
use labels::frame_number::FrameNumber;
use labels::kind::{Kind, UnknownKind};
use labels::order::Ordered;
use labels::reading::{read_label, write_label};
use labels::refusal::Refusal;
use labels::smallest::smallest;
use labels::trigger_stamp::TriggerStamp;
use std::test::Fail;

const LAST_TICK: [u8; 8] = [0xff, 0xff, 0xff, 0xff, 0x05, 0xf5, 0xe0, 0xff];

const NO_TICK: [u8; 8] = [0xff, 0xff, 0xff, 0xff, 0x05, 0xf5, 0xe1, 0x00];

#[test]
fn frames_at_both_ends(rt: HostRuntime) -> Result<(), Fail> {
    let (least, next) = read_label::<FrameNumber>(&[9, 0, 0, 0, 0], 1)?;
    assert_eq!(rt; (least.number(), next), (0, 5));
    let (most, _) = read_label::<FrameNumber>(&[0xff, 0xff, 0xff, 0xff], 0)?;
    assert_eq!(rt; most.number(), 4_294_967_295);
    assert!(rt; least < most);
    let mut out = [7u8; 6];
    assert_eq!(rt;
        write_label(FrameNumber::new(0x0102_0304), &mut out, 1),
        Ok(5)
    );
    assert_eq!(rt; out, [7, 1, 2, 3, 4, 7]);
    Ok(())
}

#[test]
fn stamps_at_both_ends(rt: HostRuntime) -> Result<(), Fail> {
    let (least, _) = read_label::<TriggerStamp>(&[0; 8], 0)?;
    let (most, _) = read_label::<TriggerStamp>(&LAST_TICK, 0)?;
    assert_eq!(rt; (least.seconds(), least.ticks()), (0, 0));
    assert_eq!(rt; (most.seconds(), most.ticks()), (4_294_967_295, 99_999_999));
    assert!(rt; least < most);
    let mut out = [0u8; 8];
    assert_eq!(rt; write_label(most, &mut out, 0), Ok(8));
    assert_eq!(rt; out, LAST_TICK);
    Ok(())
}

#[test]
fn one_tick_too_many(rt: HostRuntime) {
    assert_eq!(rt; TriggerStamp::new(7, 100_000_000), Err(Refusal::NoLabel));
    let fault = Fault {
        refusal: Refusal::NoLabel,
        place: 0,
        reader: Reader::Label,
    };
    assert_eq!(rt; read_label::<TriggerStamp>(&NO_TICK, 0), Err(fault));
}

#[test]
fn one_byte_short(rt: HostRuntime) {
    let fault = Fault {
        refusal: Refusal::InputEnds,
        place: 4,
        reader: Reader::Label,
    };
    assert_eq!(rt; read_label::<FrameNumber>(&[0; 7], 4), Err(fault));
    let past = Fault {
        refusal: Refusal::InputEnds,
        place: 9,
        reader: Reader::Label,
    };
    assert_eq!(rt; read_label::<FrameNumber>(&[0; 7], 9), Err(past));
    let mut out = [7u8; 7];
    let short = Fault {
        refusal: Refusal::OutputTooShort,
        place: 7,
        reader: Reader::Label,
    };
    assert_eq!(rt; write_label(FrameNumber::new(1), &mut out, 4), Err(short));
    assert_eq!(rt; out, [7; 7]);
}

fn read_two(input: &[u8]) -> Result<(FrameNumber, FrameNumber), Fault> {
    let (first, next) = read_label(input, 0)?;
    let (second, _) = read_label(input, next)?;
    Ok((first, second))
}

#[test]
fn a_fault_is_carried_unchanged(rt: HostRuntime) -> Result<(), Fail> {
    let fault = Fault {
        refusal: Refusal::InputEnds,
        place: 4,
        reader: Reader::Label,
    };
    assert_eq!(rt; read_two(&[0; 7]), Err(fault));
    let (first, second) = read_two(&[0, 0, 0, 1, 0, 0, 0, 2])?;
    assert_eq!(rt; (first.number(), second.number()), (1, 2));
    Ok(())
}

#[test]
fn seconds_come_before_ticks(rt: HostRuntime) -> Result<(), Fail> {
    let early = TriggerStamp::new(1, 99_999_999)?;
    let late = TriggerStamp::new(2, 0)?;
    assert!(rt; early < late);
    assert!(rt; !(late < early));
    assert!(rt; late == late);
    Ok(())
}

#[test]
fn kinds_by_number(rt: HostRuntime) {
    assert_eq!(rt; Kind::try_from(1), Ok(Kind::Frames));
    assert_eq!(rt; Kind::try_from(2), Ok(Kind::Stamps));
    for number in [0, 3] {
        assert_eq!(rt; Kind::try_from(number), Err(UnknownKind(number)));
    }
    for kind in [Kind::Frames, Kind::Stamps] {
        assert_eq!(rt; Kind::try_from(kind.number()), Ok(kind));
    }
}

#[test]
fn an_order_apart_from_ord(rt: HostRuntime) {
    let [low, high, mid] = [3, 7, 5].map(|number| Rank {
        frame: FrameNumber::new(number),
    });
    assert!(rt; low < high);
    assert!(rt; high.is_below(low));
    assert!(rt; !high.is_equal(low));
    assert_eq!(rt; smallest(&[low, high, mid, high]), Some(1));
}

#[test]
fn printed_as_documented(rt: HostRuntime) -> Result<(), Fail> {
    let stamp = TriggerStamp::new(12, 3_450)?;
    assert_eq!(rt; stamp.to_string(rt.alloc())?.as_str(), "12.00003450");
    assert_eq!(rt; FrameNumber::new(40).to_string(rt.alloc())?.as_str(), "40");
    let fault = Fault {
        refusal: Refusal::NoLabel,
        place: 12,
        reader: Reader::Label,
    };
    assert_eq!(rt;
        fault.to_string(rt.alloc())?.as_str(),
        "fault 16 at 12 in label"
    );
    Ok(())
}
