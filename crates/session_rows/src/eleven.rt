//! Eleven puts of 100 bytes, where the last one's flush saves while it packs and while it lays.
use crate::answers::{MAP, try_told};
use crate::cases::{Case, Left, cases, serve_chain, try_chain};
use crate::hundreds::{data_hundred, put_hundred};
use row_vectors::Outcome;
use row_vectors::inputs::{KEPT, OK};

const O1: &str = put_hundred!("o1", "1111111111");

const O2: &str = put_hundred!("o2", "2222222222");

const O3: &str = put_hundred!("o3", "3333333333");

const O4: &str = put_hundred!("o4", "4444444444");

const O5: &str = put_hundred!("o5", "5555555555");

const O6: &str = put_hundred!("o6", "6666666666");

const O7: &str = put_hundred!("o7", "7777777777");

const O8: &str = put_hundred!("o8", "8888888888");

const O9: &str = put_hundred!("o9", "9999999999");

const O10: &str = put_hundred!("o10", "aaaaaaaaaa");

const O11: &str = put_hundred!("o11", "bbbbbbbbbb");

/// The first nine puts make 12, 21, 30, 39, 41, 43, 52, 61 and 63 calls.
const CHECKPOINTS: &[Case] = &cases! {
    [O1, O2, O3, O4, O5, O6, O7, O8, O9] => [KEPT, KEPT, KEPT, KEPT, KEPT, KEPT, KEPT, KEPT, KEPT],
        0 (9, 9, 372), 362 calls, 20_603 bytes, "store 9 16 9 900 1000 36 still\n";
    [O10, O11, "stat\n"] => [OK, KEPT, "stat 11 1100 11 1100\n"], 0 (3, 2, 433), 61 calls, 20_825 bytes,
        "store 9 16 11 1100 1222 41 still\n";
    ["get o1\n", "get o6\n", "get o9\n", "get o10\n", "get o11\n"]
        => [data_hundred!("1111111111"), data_hundred!("6666666666"), data_hundred!("9999999999"),
        data_hundred!("aaaaaaaaaa"), data_hundred!("bbbbbbbbbb")], 0 (5, 0, 433), 0 calls, 20_825 bytes,
        "store 9 16 11 1100 1222 41 still\n";
};

#[test]
fn saves_five_checkpoints_in_one_flush(rt: HostRuntime) {
    try_chain(&rt, rt.alloc(), "9", CHECKPOINTS);
}

/// The eleven puts in two sessions.
const ELEVEN: &[Case] = &cases! {
    [O1, O2, O3, O4, O5, O6, O7, O8, O9, O10]
        => [KEPT, KEPT, KEPT, KEPT, KEPT, KEPT, KEPT, KEPT, KEPT, OK], 0 (10, 9, 372), 363 calls,
        20_603 bytes, "store 9 16 9 900 1000 36 still\n";
    [O10, O11] => [OK, KEPT], 0 (2, 2, 434), 61 calls, 20_825 bytes, "store 9 16 11 1100 1222 41 still\n";
};

/// What `map` then puts.
const ELEVEN_MAP: &str =
    "class 6 1100 122 0\nobject o1 0 100\nobject o10 900 100\nobject o11 1000 100\n\
    object o2 100 100\nobject o3 200 100\nobject o4 300 100\nobject o5 400 100\nobject o6 500 100\n\
    object o7 600 100\nobject o8 700 100\nobject o9 800 100\n";

#[test]
fn lays_the_eleven_one_behind_the_other(rt: HostRuntime) {
    let disk = serve_chain(&rt, rt.alloc(), "9", ELEVEN, 7);
    try_told(&rt, rt.alloc(), disk, MAP, ELEVEN_MAP, &"map");
}
