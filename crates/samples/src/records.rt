// Records: the lines that they stand for, and their faults.
use crate::build::{record, repeated, task};
use crate::faults::{several, single};
use plan::decode::decode;
use plan::encode::encode;
use plan::fault::RecordFault;
use plan::line::{Line, is_server};
use std::process::Abort;
use std::test::Fail;

// The number and the byte of a refusal.
fn read(answer: Result<Line, RecordFault>) -> Result<Line, (u32, u32)> {
    answer.map_err(|fault| (fault.refusal.number(), fault.byte))
}

// The four numbers of a line's record.
fn numbers(line: &Line) -> [u32; 4] {
    match line {
        Line::Task(task) => [task.work, task.period, task.deadline, task.first],
        Line::Server(server) => [server.budget, server.period, 0, 0],
    }
}

#[test]
fn records_and_lines_correspond(rt: HostRuntime) -> Result<(), Fail> {
    let lines = [
        (b'T', [1, 4, 4, 0]),
        (b'T', [3, 12, 7, 11]),
        (b'T', [258, 66_051, 65_535, 256]),
        (b'T', [1, 1, 1, 0]),
        (b'T', [1_000_000, 1_000_000, 1_000_000, 999_999]),
        (b'P', [1, 1, 0, 0]),
        (b'D', [2, 1_000_000, 0, 0]),
        (b'S', [1_000_000, 1_000_000, 0, 0]),
    ];
    for (letter, expected) in lines {
        let bytes = record(letter, expected);
        let line = read(decode(&bytes))?;
        assert_eq!(rt; (line.letter(), numbers(&line)), (letter, expected));
        assert_eq!(rt; encode(&line), bytes);
    }
    Ok(())
}

// The number and the byte of the fault of these bytes, or none.
fn fault_is<const N: usize>(rt: &impl Abort, bytes: [u8; N], place: Option<(u32, u32)>) {
    assert_eq!(rt; read(decode(&bytes)).err(), place, "{bytes:?}");
}

#[test]
fn faults_are_named_by_number_and_byte(rt: HostRuntime) {
    for (bytes, place) in single().into_iter().chain(several()) {
        fault_is(&rt, bytes, Some(place));
    }
}

#[test]
fn a_record_has_20_bytes(rt: HostRuntime) {
    let bytes = task(1, 4);
    fault_is(&rt, [], Some((1, 0)));
    fault_is(&rt, repeated::<19>(bytes), Some((1, 0)));
    fault_is(&rt, repeated::<20>(bytes), None);
    fault_is(&rt, repeated::<21>(bytes), Some((1, 0)));
    fault_is(&rt, repeated::<40>(bytes), Some((1, 0)));
}

#[test]
fn servers_have_three_letters(rt: HostRuntime) {
    for letter in 0..=255u8 {
        let expected = matches!(letter, b'P' | b'D' | b'S');
        assert_eq!(rt; (letter, is_server(letter)), (letter, expected));
    }
}
