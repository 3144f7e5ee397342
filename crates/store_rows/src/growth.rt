//! Eleven puts of 100 bytes, and the saves of the last one's flush.
use crate::acts::{Act, try_recorded};
use crate::checkpoints::Object;
use crate::flushed::Step;
use crate::flushes::{laid, row};
use crate::requests::{Ask, KEPT, QUIET, Row, rows};

/// The objects once eleven are put.
const ELEVEN_LAID: &[Object] = &[
    laid!("o1", 0, &[1; 100]),
    laid!("o10", 900, &[10; 100]),
    laid!("o11", 1_000, &[11; 100]),
    laid!("o2", 100, &[2; 100]),
    laid!("o3", 200, &[3; 100]),
    laid!("o4", 300, &[4; 100]),
    laid!("o5", 400, &[5; 100]),
    laid!("o6", 500, &[6; 100]),
    laid!("o7", 600, &[7; 100]),
    laid!("o8", 700, &[8; 100]),
    laid!("o9", 800, &[9; 100]),
];

/// The objects once nine are put.
const NINE_LAID: &[Object] = &[
    laid!("o1", 0, &[1; 100]),
    laid!("o2", 100, &[2; 100]),
    laid!("o3", 200, &[3; 100]),
    laid!("o4", 300, &[4; 100]),
    laid!("o5", 400, &[5; 100]),
    laid!("o6", 500, &[6; 100]),
    laid!("o7", 600, &[7; 100]),
    laid!("o8", 700, &[8; 100]),
    laid!("o9", 800, &[9; 100]),
];

/// The ninth put, which moves the eight before it twice, and its own object once.
const NINTH: Step = Step {
    row: row!(Ask::Put("o9", &[9; 100]) => KEPT, 63),
    length: 1_000,
    sequence: 36,
    asked: &[(6, 900)],
    moved: &[(6, 8_100)],
    caps: &[(6, 900)],
    objects: NINE_LAID,
};

/// The tenth put, for which the buffer has room.
const TENTH: Step = Step {
    row: row!(Ask::Put("o10", &[10; 100]) => QUIET, 1),
    asked: &[(6, 1_000)],
    ..NINTH
};

/// The eleventh put, whose flush saves five checkpoints: one while it packs, three while it lays, and
/// the last.
const ELEVENTH: Step = Step {
    row: row!(Ask::Put("o11", &[11; 100]) => KEPT, 60),
    length: 1_222,
    sequence: 41,
    asked: &[(6, 1_100)],
    moved: &[(6, 10_200)],
    caps: &[(6, 1_100)],
    objects: ELEVEN_LAID,
};

/// The three puts after eight.
const LATER: &[Step] = &[NINTH, TENTH, ELEVENTH];

/// The first eight puts.
const EIGHT_ROWS: &[Row] = rows! {
    Ask::Put("o1", &[1; 100]) => KEPT, b"", 12;
    Ask::Put("o2", &[2; 100]) => KEPT, b"", 21;
    Ask::Put("o3", &[3; 100]) => KEPT, b"", 30;
    Ask::Put("o4", &[4; 100]) => KEPT, b"", 39;
    Ask::Put("o5", &[5; 100]) => KEPT, b"", 41;
    Ask::Put("o6", &[6; 100]) => KEPT, b"", 43;
    Ask::Put("o7", &[7; 100]) => KEPT, b"", 52;
    Ask::Put("o8", &[8; 100]) => KEPT, b"", 61;
};

/// All of them.
const ELEVEN: &[Act] = &[Act::Rows(EIGHT_ROWS), Act::Steps(LATER)];

#[test]
fn saves_while_it_packs_and_lays(rt: HostRuntime) {
    try_recorded(&rt, rt.alloc(), 9, ELEVEN);
}
