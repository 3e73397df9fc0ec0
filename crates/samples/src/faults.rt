// Faulty records, each with the number and the byte that name its fault.
use crate::build::{marked, record, server, task};

// One wrong field in each.
pub(crate) fn single() -> [([u8; 20], (u32, u32)); 20] {
    [
        (record(b'X', [1, 4, 4, 0]), (2, 0)),
        (record(b't', [1, 4, 4, 0]), (2, 0)),
        (marked(task(1, 4), [1, 0, 0]), (3, 1)),
        (marked(task(1, 4), [0, 1, 0]), (3, 2)),
        (marked(server(b'S', 2, 8), [0, 0, 255]), (3, 3)),
        (record(b'T', [1, 0, 1, 0]), (4, 8)),
        (record(b'T', [1, 1_000_001, 1, 0]), (4, 8)),
        (server(b'P', 1, 0), (4, 8)),
        (server(b'P', 1, 1_000_001), (4, 8)),
        (record(b'T', [0, 4, 4, 0]), (5, 4)),
        (record(b'T', [5, 4, 4, 0]), (5, 4)),
        (server(b'P', 0, 8), (5, 4)),
        (server(b'P', 9, 8), (5, 4)),
        (record(b'T', [3, 8, 2, 0]), (6, 12)),
        (record(b'T', [3, 8, 9, 0]), (6, 12)),
        (record(b'T', [3, 8, 8, 8]), (6, 16)),
        (record(b'P', [2, 8, 1, 0]), (6, 12)),
        (record(b'P', [2, 8, 0, 1]), (6, 16)),
        (record(b'D', [2, 8, 8, 0]), (6, 12)),
        (record(b'S', [2, 8, 0, 7]), (6, 16)),
    ]
}

// Several faults in each: the lowest number is named, and of two fields with one number the first.
pub(crate) fn several() -> [([u8; 20], (u32, u32)); 8] {
    [
        (marked(record(b'X', [0, 0, 9, 9]), [1, 1, 1]), (2, 0)),
        (marked(record(b'T', [0, 0, 9, 9]), [1, 1, 1]), (3, 1)),
        (marked(record(b'T', [0, 0, 9, 9]), [0, 1, 1]), (3, 2)),
        (record(b'T', [0, 0, 9, 9]), (4, 8)),
        (record(b'T', [0, 8, 9, 9]), (5, 4)),
        (record(b'T', [1, 8, 9, 9]), (6, 12)),
        (record(b'S', [9, 8, 1, 1]), (5, 4)),
        (record(b'S', [2, 8, 1, 1]), (6, 12)),
    ]
}
