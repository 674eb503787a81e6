// Texts with their faults, and one with its records.
use playlist::{Fault, check, read};
use std::test::Fail;

struct Case {
    text: &'static [u8],
    fault: Option<Fault>,
}

const CASES: [Case; 31] = [
    // no line
    Case {
        text: b"",
        fault: Some(Fault { line: 1, field: 0 }),
    },
    // one byte 10
    Case {
        text: b"\n",
        fault: Some(Fault { line: 1, field: 1 }),
    },
    // an empty line after S
    Case {
        text: b"S\t1\t2\t3\t4\t5\n\nX\t0\n",
        fault: Some(Fault { line: 2, field: 1 }),
    },
    // a call before S
    Case {
        text: b"X\t0\n",
        fault: Some(Fault { line: 1, field: 0 }),
    },
    // a note alone
    Case {
        text: b"#",
        fault: Some(Fault { line: 2, field: 0 }),
    },
    Case {
        text: b"#\n",
        fault: Some(Fault { line: 2, field: 0 }),
    },
    // five K lines, then M, and then the end
    Case {
        text: b"S\t1\t2\t3\t4\t5\nK\t7\t3\nK\t7\t3\nK\t7\t3\nK\t7\t3\nK\t7\t3\nM\t1\t1\t7\n",
        fault: Some(Fault { line: 7, field: 0 }),
    },
    Case {
        text: b"S\t1\t2\t3\t4\t5\nK\t7\t3\nK\t7\t3\nK\t7\t3\nK\t7\t3\nK\t7\t3\n",
        fault: Some(Fault { line: 7, field: 0 }),
    },
    // seventeen K lines, and sixteen
    Case {
        text: b"S\t1\t2\t3\t4\t5\nK\t7\t3\nK\t7\t3\nK\t7\t3\nK\t7\t3\nK\t7\t3\nK\t7\t3\nK\t7\t3\nK\t7\t3\nK\t7\t3\nK\t7\t3\nK\t7\t3\nK\t7\t3\nK\t7\t3\nK\t7\t3\nK\t7\t3\nK\t7\t3\nK\t7\t3\n",
        fault: Some(Fault { line: 18, field: 0 }),
    },
    Case {
        text: b"S\t1\t2\t3\t4\t5\nK\t7\t3\nK\t7\t3\nK\t7\t3\nK\t7\t3\nK\t7\t3\nK\t7\t3\nK\t7\t3\nK\t7\t3\nK\t7\t3\nK\t7\t3\nK\t7\t3\nK\t7\t3\nK\t7\t3\nK\t7\t3\nK\t7\t3\nK\t7\t3\n",
        fault: None,
    },
    // M after a call
    Case {
        text: b"S\t1\t2\t3\t4\t5\nX\t0\nM\t1\t1\t7\n",
        fault: Some(Fault { line: 3, field: 0 }),
    },
    // a second S
    Case {
        text: b"S\t1\t2\t3\t4\t5\n#\nS\t1\t2\t3\t4\t5\n",
        fault: Some(Fault { line: 3, field: 0 }),
    },
    // a leading zero, and none
    Case {
        text: b"S\t1\t2\t3\t4\t5\nX\t00\n",
        fault: Some(Fault { line: 2, field: 2 }),
    },
    Case {
        text: b"S\t1\t2\t3\t4\t5\nX\t0",
        fault: None,
    },
    // thirteen digits, and fourteen
    Case {
        text: b"S\t1\t2\t3\t4\t5\nX\t9999999999999\n",
        fault: None,
    },
    Case {
        text: b"S\t1\t2\t3\t4\t5\nX\t10000000000000\n",
        fault: Some(Fault { line: 2, field: 2 }),
    },
    // a tab at a line's end
    Case {
        text: b"S\t1\t2\t3\t4\t5\nX\t1\t\n",
        fault: Some(Fault { line: 2, field: 0 }),
    },
    // an empty number
    Case {
        text: b"S\t1\t2\t3\t4\t5\nX\t\n",
        fault: Some(Fault { line: 2, field: 2 }),
    },
    // byte 13 at a line's end
    Case {
        text: b"S\t1\t2\t3\t4\t5\nX\t1\r\n",
        fault: Some(Fault { line: 2, field: 2 }),
    },
    Case {
        text: b"S\t1\t2\t3\t4\t5\nX\r\n",
        fault: Some(Fault { line: 2, field: 1 }),
    },
    // bytes above 127 in a note, and in a field
    Case {
        text: b"S\t1\t2\t3\t4\t5\n#\xff\x80\n",
        fault: None,
    },
    Case {
        text: b"S\t1\t2\t3\t4\t5\nX\t\xff\n",
        fault: Some(Fault { line: 2, field: 2 }),
    },
    // the largest reference, and one above it
    Case {
        text: b"S\t1\t2\t3\t4\t5\nA\t1\t2\t65535\t0\n",
        fault: None,
    },
    Case {
        text: b"S\t1\t2\t3\t4\t5\nA\t1\t2\t65536\tz\n",
        fault: Some(Fault { line: 2, field: 4 }),
    },
    // a wrong count before a bad number
    Case {
        text: b"S\t1\t2\t3\t4\t5\nA\t1\t2\t65536\n",
        fault: Some(Fault { line: 2, field: 0 }),
    },
    // a letter alone
    Case {
        text: b"S\t1\t2\t3\t4\t5\nX\n",
        fault: Some(Fault { line: 2, field: 0 }),
    },
    // no such letter
    Case {
        text: b"S\t1\t2\t3\t4\t5\nXX\t1\n",
        fault: Some(Fault { line: 2, field: 1 }),
    },
    Case {
        text: b"S\t1\t2\t3\t4\t5\nx\t1\n",
        fault: Some(Fault { line: 2, field: 1 }),
    },
    Case {
        text: b"S\t1\t2\t3\t4\t5\n X\t1\n",
        fault: Some(Fault { line: 2, field: 1 }),
    },
    // no digits
    Case {
        text: b"S\t1\t2\t3\t4\t5\nX\t+1\n",
        fault: Some(Fault { line: 2, field: 2 }),
    },
    Case {
        text: b"S\t1\t2\t3\t4\t5\nX\t 1\n",
        fault: Some(Fault { line: 2, field: 2 }),
    },
];

#[test]
fn faults(rt: HostRuntime) {
    for case in &CASES {
        assert_eq!(rt; check(case.text), case.fault);
    }
}

#[test]
fn long_texts(rt: HostRuntime) {
    let text = [b'#'; 60_001];
    assert_eq!(rt; check(&text), Some(Fault { line: 0, field: 0 }));
    assert_eq!(rt; check(&text[1..]), Some(Fault { line: 2, field: 0 }));
}

#[test]
fn records(rt: HostRuntime) -> Result<(), Fail> {
    let text = b"#\nS\t8\t10\t20\t30\t40\nM\t5\t3\t7\nA\t1\t2\t3\t4\nR\t5";
    let playlist = read(rt.alloc(), text)?;
    assert_eq!(rt; playlist.stations, 8);
    assert_eq!(rt; playlist.settings.link, 40);
    assert_eq!(rt; playlist.roles.len(), 0);
    assert_eq!(rt; playlist.subscribers.len(), 1);
    assert_eq!(rt; playlist.calls.len(), 2);
    Ok(())
}
