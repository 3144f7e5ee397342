//! The commands `work` and `cached` over new files, and what a plain program in another language found of the
//! same jobs: their summaries, and the counts of a cache.
use crate::answers::{got, try_command, try_holds};
use disk_mem::PlainDisk;
use row_vectors::runs::run_on;
use std::alloc::Global;
use std::process::Abort;

/// How many bytes the disk has room for.
const ROOM: u64 = 1 << 25;

/// The summary of 5,000 jobs of number 1 at a divisor of 9 and with 4,096 names.
macro_rules! five_thousand {
    ($counts:literal) => {
        concat!(
            "requests 5001\nok 3277\nkept 646\nread 824408\nrefused 879\nnames 2078\nbytes 8445335\n",
            "length 9285713\nmoved 312503692\nlinear 20971767765925888 1153363068583936\n",
            "flat 6822083559424 427206426624\nseek 21408381113729024 1180704279887872\n",
            $counts,
        )
    };
}

const FIVE_THOUSAND: &str = five_thousand!("");

/// The same, and the counts of a cache of 64 objects.
const FIVE_THOUSAND_CACHED: &str = five_thousand!("hits 1\nmisses 93\ndrops 0\n");

/// A disk with a new store of a divisor and so many names.
fn made(rt: &impl Abort, alloc: Global, k: &str, names: &str) -> PlainDisk {
    let new = PlainDisk::with_room(alloc, ROOM).expect(rt, "memory");
    let words = ["format", "f", k, names];
    got(rt, run_on(alloc, &words, false, new, Vec::new(alloc))).disk
}

/// Tries what a command puts over a new file with this divisor and so many names.
fn try_jobs(rt: &impl Abort, alloc: Global, [k, names]: [&str; 2], words: &[&str], text: &str) {
    try_command(rt, alloc, made(rt, alloc, k, names), words, 0, text);
}

/// The summary of 2,000 jobs of number 1 at a divisor of 9 and with 4,096 names.
const FIRST: &str = concat!(
    "requests 2001\nok 1252\nkept 290\nread 120922\nrefused 431\nnames 1070\nbytes 4375307\n",
    "length 4787964\nmoved 110498382\nlinear 7415420889858048 402236505063424\n",
    "flat 2408889778176 149487026176\nseek 7569589835661312 411803674738688\n",
);

/// The summary of 2,000 jobs of number 7 at a divisor of 2 and with 64 names.
macro_rules! seventh {
    ($counts:literal) => {
        concat!(
            "requests 2001\nok 1315\nkept 359\nread 881057\nrefused 108\nnames 57\nbytes 227563\n",
            "length 331223\nmoved 34041866\nlinear 2284510955700224 637253223186432\n",
            "flat 753261133824 242422874112\nseek 2332719668264960 652768287129600\n",
            $counts,
        )
    };
}

const SEVENTH: &str = seventh!("");

#[test]
fn sums_up_two_thousand_jobs(rt: HostRuntime) {
    try_jobs(
        &rt,
        rt.alloc(),
        ["9", "4096"],
        &["work", "f", "1", "2000"],
        FIRST,
    );
    try_jobs(
        &rt,
        rt.alloc(),
        ["2", "64"],
        &["work", "f", "7", "2000"],
        SEVENTH,
    );
}

#[test]
fn does_the_same_jobs_again_over_another_file(rt: HostRuntime) {
    let words = &["work", "f", "1", "5000"];
    try_jobs(&rt, rt.alloc(), ["9", "4096"], words, FIVE_THOUSAND);
    try_jobs(&rt, rt.alloc(), ["9", "4096"], words, FIVE_THOUSAND);
}

#[test]
fn does_the_same_jobs_again_through_a_cache(rt: HostRuntime) {
    let words = &["cached", "f", "1", "5000", "64"];
    try_jobs(&rt, rt.alloc(), ["9", "4096"], words, FIVE_THOUSAND_CACHED);
    try_jobs(&rt, rt.alloc(), ["9", "4096"], words, FIVE_THOUSAND_CACHED);
}

/// How many objects a cache has room for, and what is put of 2,000 jobs of number 7 that are done through it.
const CACHES: &[(&str, &str)] = &[
    ("1", seventh!("hits 3\nmisses 110\ndrops 0\n")),
    ("4", seventh!("hits 9\nmisses 104\ndrops 0\n")),
    ("4096", seventh!("hits 12\nmisses 101\ndrops 0\n")),
];

#[test]
fn counts_the_hits_of_caches(rt: HostRuntime) {
    for (entries, text) in CACHES {
        let words = &["cached", "f", "7", "2000", *entries];
        try_jobs(&rt, rt.alloc(), ["2", "64"], words, *text);
    }
}

/// By each cost what was moved, and what was asked for.
const COSTS: &[(u64, u64)] = &[
    (20_971_767_765_925_888, 1_153_363_068_583_936),
    (6_822_083_559_424, 427_206_426_624),
    (21_408_381_113_729_024, 1_180_704_279_887_872),
];

/// Whether what was moved is at most 561 times what was asked for.
fn is_paid_for(moved: u64, asked: u64) -> bool {
    (moved as u128) <= 561 * (asked as u128)
}

// Of the 5,000 jobs: the length is within 10/8 of the live bytes, and each cost is paid for.
#[test]
fn keeps_length_and_costs_of_the_jobs_within_their_bounds(rt: HostRuntime) {
    try_holds(&rt, 8 * 9_285_713 <= 10 * 8_445_335, &"length");
    for (moved, asked) in COSTS {
        try_holds(&rt, is_paid_for(*moved, *asked), moved);
    }
}
