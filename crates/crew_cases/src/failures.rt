//! A shelf that fails at each of its calls in turn, and sinks with room for no byte, for one, and so on to the whole answer.

use crate::programs::{
    CIRCUIT, LOG, LONG_STIMULUS, Outside, PRINTING, STIMULUS, TRACE, answer, holding,
};
use crew_workers::OpenGate;
use std::alloc::{AllocError, Global};
use std::process::Abort;
use std::sync::Wait;
use std::test::Fail;
use std::thread::Threads;

/// A command line over the texts of a shelf, and its status and its bytes where nothing fails.
type Row = (&'static [&'static str], u8, &'static str);

/// The state of the counter behind the four cycles of its stimulus.
const STATE: &str = "state 4\ninput reset 0\nreg r 3\n";

/// The counter's output, which is 0 in two cycles.
const DUMP: &str = "$timescale 1 ns $end
$scope module M $end
$var wire 4 ! out $end
$upscope $end
$enddefinitions $end
#0
b0000 !
#2
b0001 !
#3
b0010 !
#4
";

/// Of the counter.
const COUNTER: [Row; 13] = [
    (&["run", "-"], 0, TRACE),
    (&["run", "--workers", "2", "circuit", "stimulus"], 0, TRACE),
    (&["vcd", "-"], 0, DUMP),
    (&["log", "-"], 0, "ended 4\n"),
    (&["save", "-"], 0, STATE),
    (
        &["resume", "-", "state"],
        0,
        "cycle out\n4 3\n5 0\n6 1\n7 2\n",
    ),
    (&["check", "circuit"], 0, "ok\n"),
    (
        &["widths", "circuit"],
        0,
        "M reset UInt 1\nM out UInt 4\nM r UInt 4\n",
    ),
    (&["make", "--cycles", "2", "2"], 0, "bytes 18\n1 1\n"),
    (&["simulate", "circuit"], 1, "usage\n"),
    (&["run", "circuit"], 2, "circuit NoStimulus 1:1\n"),
    (&["run", "circuit", "state"], 3, "stimulus BadLine 1:1\n"),
    (&["save", "-", "stimulus"], 3, "state NameOrder 1:1\n"),
];

/// Of the circuit that prints.
const PRINTS: [Row; 2] = [
    (&["log", "--workers", "2", "-"], 0, LOG),
    (
        &["run", "-"],
        0,
        "cycle out\n0 0\n1 0\n2 1\n3 2\n4 3\n5 4\n6 5\n7 6\n8 7\n",
    ),
];

/// How often a shelf is called that gives one byte a call, where a command names this word: once for the opening, once for each byte of
/// the text, and once at its end.
fn calls_for(outside: Outside<'_>, word: &str) -> u64 {
    let circuit = outside.circuit.len() as u64;
    let stimulus = outside.stimulus.len() as u64;
    let bytes = match word {
        "-" => circuit.saturating_add(stimulus).saturating_add(10),
        "circuit" => circuit,
        "stimulus" => stimulus,
        "state" => outside.state.len() as u64,
        _ => return 0,
    };
    bytes.saturating_add(2)
}

/// Asks for a status and bytes.
fn expect<R: Threads + Wait + Sync + Abort>(
    rt: &R,
    alloc: Global,
    words: &[&str],
    outside: Outside<'_>,
    wanted: (u8, &[u8]),
) -> Result<(), AllocError> {
    let (status, written) = answer(rt, alloc, &OpenGate, words, outside)?;
    assert_eq!(rt; status, wanted.0, "{words:?}");
    assert_eq!(rt; written.as_slice(), wanted.1, "{words:?}");
    Ok(())
}

/// Lets each call on the shelf fail in turn, and then each byte have no room and each write fail. One call later, and with room for all, the
/// answer is whole.
fn fail_in_turn<R: Threads + Wait + Sync + Abort>(
    rt: &R,
    alloc: Global,
    row: Row,
    outside: Outside<'_>,
) -> Result<(), AllocError> {
    let (words, status, text) = row;
    let bytes = text.as_bytes();
    let mut calls: u64 = 0;
    if status != 1 {
        for word in words {
            calls = calls.saturating_add(calls_for(outside, word));
        }
    }
    let whole = Outside {
        room: bytes.len(),
        ..outside
    };
    let nothing: &[u8] = &[];
    for call in 0..calls {
        let fails = [call + 1];
        let read = Outside {
            read: &fails,
            ..whole
        };
        expect(rt, alloc, words, read, (4, nothing))?;
    }
    let fails = [calls.saturating_add(1)];
    let read = Outside {
        read: &fails,
        ..whole
    };
    expect(rt, alloc, words, read, (status, bytes))?;
    for room in 0..bytes.len() {
        let prefix = &bytes[..room];
        expect(rt, alloc, words, Outside { room, ..outside }, (5, prefix))?;
        let fails = [room as u64 + 1];
        let write = Outside {
            write: &fails,
            ..whole
        };
        expect(rt, alloc, words, write, (5, prefix))?;
    }
    Ok(())
}

#[test]
fn each_call_outside_fails_in_turn(rt: HostRuntime) -> Result<(), Fail> {
    let mut outside = holding(CIRCUIT, STIMULUS);
    outside.state = STATE;
    for row in COUNTER {
        fail_in_turn(&rt, rt.alloc(), row, outside)?;
    }
    for row in PRINTS {
        fail_in_turn(&rt, rt.alloc(), row, holding(PRINTING, LONG_STIMULUS))?;
    }
    Ok(())
}
