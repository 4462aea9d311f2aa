//! Calls, answers and files as bytes, and the numbers of kinds.
use std::process::Abort;
use wire::{
    Answer, Call, Calls, Garbled, Head, Refusal, Rule, RuleKind, UnknownKind, UnknownRefusal,
    lay_bytes, next_call, read_call, read_head, rule_of_kind,
};

/// A lay of rule kind 2 with fields 1, 256 and 65536, and a byte too many.
const LAY: [u8; 15] = [0, 2, 1, 0, 0, 0, 0, 1, 0, 0, 0, 0, 1, 0, 9];

#[test]
fn calls(rt: HostRuntime) {
    let rule = Rule::TakeSum {
        from: 1,
        to: 256,
        sum: 65536,
    };
    assert_eq!(rt; lay_bytes(rule).as_slice(), &LAY[..14]);
    let table: [(&[u8], Call); 5] = [
        (&LAY[..14], Call::Lay(rule)),
        (&[1, 255, 255, 255, 255], Call::Lift(4294967295)),
        (&[2, 7, 0, 0, 0], Call::Left(7)),
        (&[3, 0, 1, 0, 0], Call::Row(256)),
        (&[4, 0, 0, 0, 1], Call::Safe(16777216)),
    ];
    for (bytes, call) in table {
        assert_eq!(rt; read_call(bytes), Ok(call));
    }
}

/// The place of the first byte that doesn't fit, or where one is missing.
#[test]
fn no_calls(rt: HostRuntime) {
    let table: [(&[u8], u64); 8] = [
        (&[], 0),
        (&[5, 0, 0, 0, 0], 0),
        (&[0, 5, 0, 0, 0, 0, 0, 0, 0, 0, 0, 0, 0, 0], 1),
        (&LAY[..1], 1),
        (&LAY[..13], 13),
        (&LAY, 14),
        (&[2, 0, 0, 0], 4),
        (&[2, 0, 0, 0, 0, 0], 5),
    ];
    for (bytes, place) in table {
        assert_eq!(rt; read_call(bytes), Err(Garbled { place }));
    }
}

#[test]
fn kinds(rt: HostRuntime) {
    let kinds = [
        (0, RuleKind::Take),
        (1, RuleKind::Give),
        (2, RuleKind::TakeSum),
        (3, RuleKind::GiveSum),
        (4, RuleKind::Fade),
    ];
    for (number, kind) in kinds {
        assert_eq!(rt; RuleKind::try_from(number), Ok(kind));
        assert_eq!(rt; kind as u8, number);
        let rule = kind.rule([10, 20, 30]);
        assert_eq!(rt; rule.kind(), kind);
        assert_eq!(rt; rule.numbers(), [10, 20, 30]);
        assert_eq!(rt; rule_of_kind(number, 10, 20, 30), rule);
    }
    assert_eq!(rt; RuleKind::try_from(5), Err(UnknownKind(5)));
}

/// Three numbers of eight bytes each, of which these are the lowest.
fn reads_back(rt: &impl Abort, answer: Answer, lowest: [u8; 3]) {
    let bytes = answer.to_bytes();
    assert_eq!(rt; [bytes[0], bytes[8], bytes[16]], lowest);
    assert_eq!(rt; Answer::from_bytes(&bytes), Some(answer));
}

#[test]
fn answers(rt: HostRuntime) {
    let two = [
        2, 0, 0, 0, 0, 0, 0, 0, 2, 1, 0, 0, 0, 0, 0, 0, 255, 255, 255, 255, 255, 255, 255, 255,
    ];
    assert_eq!(rt; Answer::Two(258, u64::MAX).to_bytes(), two);
    reads_back(&rt, Answer::Two(258, u64::MAX), [2, 2, 255]);
    reads_back(&rt, Answer::Number(7), [1, 7, 0]);
    let refusals = [
        (Refusal::from(Garbled { place: 14 }), 1, 14),
        (Refusal::OutOfRange, 2, 0),
        (Refusal::TooManyRules, 3, 0),
        (Refusal::BoundTooHigh, 3, 1),
        (Refusal::MemoryTooSmall, 3, 2),
        (Refusal::NoSuchRule, 4, 0),
        (Refusal::BookFull, 5, 0),
    ];
    for (refusal, number, place) in refusals {
        reads_back(&rt, Answer::Refused(refusal), [0, number, place]);
    }
    let (number, place) = (4, 1);
    let unknown = UnknownRefusal { number, place };
    assert_eq!(rt; Refusal::try_from((number, place)), Err(unknown));
    assert_eq!(rt; Answer::from_bytes(&[3; 24]), None);
}

#[test]
fn heads(rt: HostRuntime) {
    let head = Head {
        rules: 2,
        bound: 261,
    };
    assert_eq!(rt; read_head(b"\x02\0\0\0\x05\x01\0\0\x09"), Some(head));
    assert_eq!(rt; read_head(b"\x02\0\0\0\x05\0\0"), None);
}

/// A call of one byte, an empty one, one of three, and a length that is cut short.
#[test]
fn files(rt: HostRuntime) {
    let mut calls = Calls::new(b"\x01\0\0\0\x09\0\0\0\0\x03\0\0\0\x07\x07\x01\0");
    let all: [&[u8]; 4] = [b"\x09", b"", b"\x07\x07\x01", b""];
    for expected in all {
        assert_eq!(rt; calls.next(), Some(expected));
    }
    assert_eq!(rt; calls.next(), None);
    let cut: (&[u8], &[u8]) = (&[1, 2], &[]);
    assert_eq!(rt; next_call(&[9, 0, 0, 0, 1, 2]), Some(cut));
}
