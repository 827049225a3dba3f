// The example of docs/script-format.md, the faults that the page lists, and lists that end too soon.
// Then a script's backplane over lists that it was handed, and over lists that it was lent.
use exchanges::backplane::Backplane;
use labels::fault::{Fault, Reader};
use labels::frame_number::FrameNumber;
use labels::refusal::Refusal;
use labels::slip::Slip;
use script::model::{Header, Record, Script};
use script::reading::read;
use script::script_plane::ScriptBackplane;
use script::writing::write;
use std::alloc::{AllocError, Global};
use std::test::Fail;

const EXAMPLE: [u8; 32] = [
    1, 4, 1, 6, 8, 1, 0, 0, 0, 5, 0, 0, 0, 5, 0, 0, 0, 6, 0, 0, 0, 9, 0, 1, 3, 3, 4, 0, 0, 0, 0, 6,
];

const HEAD: Header = Header {
    boards: 4,
    faults: None,
    bad: Some(8),
    phases: Some(1),
};

const NOTE: Record = Record {
    round: 1,
    sender: 3,
    lost: 3,
    forged: 4,
};

fn slip(number: u32) -> Slip<FrameNumber> {
    Slip {
        label: FrameNumber::new(number),
        phase: 0,
    }
}

// What reading answers, with memory for the example and no more.
fn answer(bytes: &[u8]) -> Result<(Header, usize), Fault> {
    let mut proposals = [FrameNumber::new(0); 4];
    let mut records = [NOTE; 1];
    let mut slips = [slip(0); 1];
    read::<FrameNumber>(bytes, &mut proposals, &mut records, &mut slips)
}

fn changed(place: usize, byte: u8) -> Result<(Header, usize), Fault> {
    let mut bytes = EXAMPLE;
    if place < 32 {
        bytes[place] = byte;
    }
    answer(&bytes)
}

fn refused<T>(refusal: Refusal, place: usize, reader: Reader) -> Result<T, Fault> {
    Err(Fault {
        refusal,
        place,
        reader,
    })
}

#[test]
fn reads_and_writes_the_example(rt: HostRuntime) -> Result<(), Fail> {
    let mut proposals = [FrameNumber::new(0); 4];
    let mut records = [NOTE; 1];
    let mut slips = [slip(0); 1];
    let (head, count) = read::<FrameNumber>(&EXAMPLE, &mut proposals, &mut records, &mut slips)?;
    assert_eq!(rt; head, HEAD);
    assert_eq!(rt; count, 1);
    assert_eq!(rt; records, [NOTE]);
    assert_eq!(rt; (proposals[3].number(), slips[0].label.number()), (9, 6));
    let mut out = [0xffu8; 33];
    let script = Script {
        head,
        proposals: &proposals,
        records: &records,
        count,
        slips: &slips,
    };
    assert_eq!(rt; write(script, &mut out), Ok(32));
    let mut want = [0xffu8; 33];
    want[..32].copy_from_slice(&EXAMPLE);
    assert_eq!(rt; out, want);
    Ok(())
}

#[test]
fn faults_of_one_byte(rt: HostRuntime) {
    assert_eq!(rt;
        changed(2, 3),
        refused(Refusal::FieldOutOfRange, 2, Reader::Script)
    );
    assert_eq!(rt;
        changed(5, 8),
        refused(Refusal::DefaultStands, 5, Reader::Script)
    );
    assert_eq!(rt;
        changed(23, 0),
        refused(Refusal::RecordOrder, 22, Reader::Record)
    );
    assert_eq!(rt;
        changed(24, 4),
        refused(Refusal::NoBoardOfRecord, 24, Reader::Record)
    );
    assert_eq!(rt;
        changed(25, 7),
        refused(Refusal::LostAndForged, 26, Reader::Record)
    );
    assert_eq!(rt;
        changed(4, 4),
        refused(Refusal::SoundForger, 26, Reader::Record)
    );
}

#[test]
fn faults_of_an_end(rt: HostRuntime) {
    assert_eq!(rt;
        answer(&EXAMPLE[0..20]),
        refused(Refusal::InputEnds, 18, Reader::Label)
    );
    assert_eq!(rt;
        answer(&EXAMPLE[0..24]),
        refused(Refusal::InputEnds, 24, Reader::Record)
    );
    assert_eq!(rt;
        answer(&EXAMPLE[0..27]),
        refused(Refusal::InputEnds, 27, Reader::Record)
    );
    assert_eq!(rt; answer(&EXAMPLE[0..22]), Ok((HEAD, 0)));
    assert_eq!(rt;
        answer(&[0; 60_001]),
        refused(Refusal::ScriptTooLong, 60_000, Reader::Script)
    );
}

#[test]
fn lists_that_end_too_soon(rt: HostRuntime) {
    let proposals = [FrameNumber::new(5); 4];
    let slips = [slip(6); 1];
    let mut out = [0u8; 31];
    let whole = Script {
        head: HEAD,
        proposals: &proposals,
        records: &[NOTE],
        count: 1,
        slips: &slips,
    };
    let few_proposals = Script {
        proposals: &proposals[0..3],
        ..whole
    };
    assert_eq!(rt;
        write(few_proposals, &mut out),
        refused(Refusal::InputEnds, 18, Reader::Label)
    );
    let no_slips = Script {
        slips: &slips[0..0],
        ..whole
    };
    assert_eq!(rt;
        write(no_slips, &mut out),
        refused(Refusal::InputEnds, 27, Reader::Record)
    );
    let few_records = Script {
        count: usize::MAX,
        ..whole
    };
    assert_eq!(rt;
        write(few_records, &mut out),
        refused(Refusal::InputEnds, 32, Reader::Record)
    );
    assert_eq!(rt;
        write(whole, &mut out),
        refused(Refusal::OutputTooShort, 31, Reader::Script)
    );
    assert_eq!(rt; out, [0u8; 31]);
}

// The record past the count says nothing.
const UNCOUNTED: Record = Record {
    round: 1,
    sender: 0,
    lost: 14,
    forged: 0,
};

// What four boards hear under the record of the example alone, where each board sends 9: board 0 of
// board 3 before the round of the record; in it boards 0 to 3 of board 3, which is bad, board 1 of
// board 0, and a board that there is not; and board 2 of board 3 after it.
const HEARD: [Option<u8>; 8] = [
    Some(9),
    None,
    None,
    Some(6),
    Some(9),
    Some(9),
    None,
    Some(9),
];

fn heard(mut plane: ScriptBackplane<'_, u8>) -> Result<[Option<u8>; 8], Refusal> {
    let before = plane.carry(3, 0, Some(9));
    plane.turn()?;
    let lost = plane.carry(3, 0, Some(9));
    let lost_too = plane.carry(3, 1, Some(9));
    let forged = plane.carry(3, 2, Some(9));
    let own = plane.carry(3, 3, Some(9));
    let sound = plane.carry(0, 1, Some(9));
    let no_board = plane.carry(3, 4, Some(9));
    plane.turn()?;
    let after = plane.carry(3, 2, Some(9));
    Ok([before, lost, lost_too, forged, own, sound, no_board, after])
}

fn made_of_vecs(heap: Global) -> Result<ScriptBackplane<'static, u8>, AllocError> {
    let records = vec![in heap; NOTE, UNCOUNTED]?;
    let slips = vec![in heap; 6]?;
    Ok(ScriptBackplane::new(4, 8, records, 1, slips))
}

#[test]
fn lists_that_are_handed_over(rt: HostRuntime) -> Result<(), Fail> {
    let plane = made_of_vecs(rt.alloc())?;
    assert_eq!(rt; (plane.boards(), plane.round()), (4, 0));
    assert_eq!(rt; heard(plane)?, HEARD);
    Ok(())
}

#[test]
fn lists_that_are_lent(rt: HostRuntime) -> Result<(), Fail> {
    let records = [NOTE, UNCOUNTED];
    let slips = vec![in rt.alloc(); 6]?;
    let of_slices = ScriptBackplane::new(4, 8, records.as_slice(), 1, slips.as_slice());
    assert_eq!(rt; heard(of_slices)?, HEARD);
    let of_others = ScriptBackplane::new(4, 8, &records, 1, &slips);
    assert_eq!(rt; heard(of_others)?, HEARD);
    Ok(())
}
