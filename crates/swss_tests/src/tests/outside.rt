// Sources and sinks in memory that fail.
use std::process::Abort;
use swss_types::{Gate, Got, MemSink, MemSource, Open, Sink, Source, Took};

#[test]
fn a_source_in_memory_gives_all_bytes(rt: HostRuntime) {
    // How much it gives at once, the call at which it fails, and what it answers to calls of three bytes.
    let cases = [
        (
            1,
            2,
            [Got::Bytes(1), Got::Failed, Got::Bytes(1), Got::Bytes(1)],
        ),
        (9, 3, [Got::Bytes(3), Got::Bytes(2), Got::Failed, Got::End]),
        (
            2,
            9,
            [Got::Bytes(2), Got::Bytes(2), Got::Bytes(1), Got::End],
        ),
    ];
    for (piece, call, answers) in cases {
        let bytes = Vec::from_slice(rt.alloc(), b"abcde").expect(&rt, "memory");
        let fails = Vec::from_array(rt.alloc(), [call]).expect(&rt, "memory");
        let mut source = MemSource::in_pieces(bytes, fails, piece);
        read_each(&rt, &mut source, answers);
        assert!(rt; source.faults() == u64::from(call < 9), "{piece} at once");
    }
}

/// Reads three bytes at a time: the answers are these, and the bytes those of the text, one after the other.
fn read_each(rt: &impl Abort, source: &mut MemSource, answers: [Got; 4]) {
    let mut left = b"abcde".as_slice();
    for answer in answers {
        let mut part = [0; 3];
        let got = source.read(&mut part);
        assert!(rt; got == answer, "{got:?} and {answer:?}");
        if let Got::Bytes(count) = answer {
            let given = part.get(..count).expect(rt, "at most three");
            left = left.strip_prefix(given).expect(rt, "the next bytes");
        }
    }
}

#[test]
fn a_source_in_memory_gives_as_much_as_there_is_place_for(rt: HostRuntime) {
    let bytes = Vec::from_slice(rt.alloc(), b"abcde").expect(&rt, "memory");
    let mut source = MemSource::new(bytes, Vec::new(rt.alloc()));
    let mut part = [0; 3];
    // The second call leaves the last byte as it was.
    for (answer, bytes) in [
        (Got::Bytes(3), b"abc".as_slice()),
        (Got::Bytes(2), b"dec"),
        (Got::End, b"dec"),
    ] {
        let got = source.read(&mut part);
        assert!(rt; got == answer && part.as_slice() == bytes, "{got:?}");
    }
    assert!(rt; source.faults() == 0);
}

#[test]
fn a_sink_in_memory_holds_what_it_took(rt: HostRuntime) {
    let fails = Vec::from_array(rt.alloc(), [1, 3]).expect(&rt, "memory");
    let mut failing = MemSink::in_pieces(rt.alloc(), fails, 1);
    for took in [Took::Failed, Took::Bytes(1), Took::Failed, Took::Bytes(1)] {
        assert!(rt; failing.write(b"xyz") == took, "{took:?}");
    }
    assert!(rt;
        failing.held() == b"xx".as_slice() && failing.faults() == 2,
        "two bytes"
    );
    let mut sink = MemSink::new(rt.alloc(), Vec::new(rt.alloc()));
    assert!(rt; sink.write(b"xyz") == Took::Bytes(3), "all at once");
    assert!(rt;
        sink.held() == b"xyz".as_slice() && sink.faults() == 0,
        "three bytes"
    );
    Open.pause(0, 0);
}
