//! What the words of the command line come to.
use crate::answers::{Told, got, told, try_answer, try_bytes, try_outcome};
use crate::images::image;
use crate::runs::{ended, run};
use std::alloc::Global;
use std::process::Abort;

/// Commands over the hand-made file: `get` and `format`.
const GETS: &[Told] = &told! {
    ["get", "f", "b"] => 6 "fault missing\n";
    ["get", "g", "a"] => 3 "fault no file\n";
    ["get", "f"] => 1 "fault words\n";
    ["get", "", "a"] => 1 "fault words\n";
    ["get", "f", "a b"] => 1 "fault words\n";
    ["got", "f", "a"] => 1 "fault words\n";
    ["format", "f", "1", "16"] => 1 "fault words\n";
    ["format", "f", "09", "16"] => 1 "fault words\n";
    ["format", "f", "9", "+16"] => 1 "fault words\n";
    ["format", "f", "9", "65537"] => 1 "fault words\n";
};

/// `work` and `cached`.
const WORKS: &[Told] = &told! {
    ["work", "f", "18446744073709551616", "1"] => 1 "fault words\n";
    ["work", "f", "0", "0"] => 1 "fault words\n";
    ["work", "f", "0", "1000001"] => 1 "fault words\n";
    ["work", "g", "18446744073709551615", "1000000"] => 3 "fault no file\n";
    // The first job of this number reads a name that isn't there.
    ["work", "f", "18446744073709551615", "1"] => 0 concat!(
            "requests 2\nok 0\nkept 1\nread 0\nrefused 1\nnames 1\nbytes 5\nlength 5\nmoved 0\n",
            "linear 0 0\nflat 0 0\nseek 0 0\n"
    );
    ["cached", "f", "0", "1"] => 1 "fault words\n";
    ["cached", "f", "0", "1", "0"] => 1 "fault words\n";
    ["cached", "f", "0", "1", "4097"] => 1 "fault words\n";
    ["cached", "f", "0", "0", "1"] => 1 "fault words\n";
    ["cached", "g", "0", "1", "4096"] => 3 "fault no file\n";
    ["cached", "f", "18446744073709551615", "1", "1"] => 0 concat!(
            "requests 2\nok 0\nkept 1\nread 0\nrefused 1\nnames 1\nbytes 5\nlength 5\nmoved 0\n",
            "linear 0 0\nflat 0 0\nseek 0 0\nhits 0\nmisses 0\ndrops 0\n"
    );
};

/// `check`, `map`, `dump` and `upgrade`.
const TELLS: &[Told] = &told! {
    ["check", "f"] => 0 "store 9 16 1 5 5 1 still\n";
    ["check", ""] => 1 "fault words\n";
    ["map", "g"] => 3 "fault no file\n";
    ["dump", "g"] => 3 "fault no file\n";
    ["dump", ""] => 1 "fault words\n";
    ["dump", "f", "a"] => 1 "fault words\n";
    ["upgrade", "f"] => 0 "upgraded\n";
    ["upgrade", "g"] => 3 "fault no file\n";
    ["upgrade", ""] => 1 "fault words\n";
    ["upgrade", "f", "a"] => 1 "fault words\n";
};

/// `batch` and `desk`.
const BATCHES: &[Told] = &told! {
    ["batch", "f"] => 0 "ok\n";
    ["batch", "g"] => 3 "fault no file\n";
    ["batch", ""] => 1 "fault words\n";
    ["batch", "f", "a"] => 1 "fault words\n";
    ["desk", "f"] => 0 "left 0\n";
    ["desk", "g"] => 3 "fault no file\n";
    ["desk", ""] => 1 "fault words\n";
    ["desk", "f", "a"] => 1 "fault words\n";
};

/// `load`, and what else there is.
const LOADS: &[Told] = &told! {
    ["format", "f", "9", "16"] => 5 "fault taken 19608\n";
    ["load", "f", "9", "16"] => 5 "fault taken 19608\n";
    ["load", "f", "1", "16"] => 1 "fault words\n";
    ["load", "f", "65", "16"] => 1 "fault words\n";
    ["load", "f", "9", "15"] => 1 "fault words\n";
    ["load", "f", "9", "65537"] => 1 "fault words\n";
    ["load", "f", "09", "16"] => 1 "fault words\n";
    ["load", "f", "9"] => 1 "fault words\n";
    ["--version"] => 0 "costore 0.1.0\n";
};

/// What a command comes to over the hand-made file.
fn try_row(rt: &impl Abort, alloc: Global, row: &Told) {
    let bytes = got(rt, image(alloc, 19608, &[], &[]));
    let ran = got(rt, run(alloc, row.words, &bytes));
    try_answer(rt, &ran, row.status, row.puts);
}

/// Those of `get` and `format`. A table of all commands would be dear to prove.
fn try_gets(rt: &impl Abort, alloc: Global) {
    for row in GETS {
        try_row(rt, alloc, row);
    }
}

/// Those of `work` and `cached`.
fn try_works(rt: &impl Abort, alloc: Global) {
    for row in WORKS {
        try_row(rt, alloc, row);
    }
}

/// Those that tell, and of `upgrade`.
fn try_tells(rt: &impl Abort, alloc: Global) {
    for row in TELLS {
        try_row(rt, alloc, row);
    }
}

/// Those of `batch` and `desk`.
fn try_batches(rt: &impl Abort, alloc: Global) {
    for row in BATCHES {
        try_row(rt, alloc, row);
    }
}

/// Those of `load`, and the rest.
fn try_loads(rt: &impl Abort, alloc: Global) {
    for row in LOADS {
        try_row(rt, alloc, row);
    }
}

#[test]
fn ends_by_the_words(rt: HostRuntime) {
    try_gets(&rt, rt.alloc());
    try_works(&rt, rt.alloc());
    try_tells(&rt, rt.alloc());
    try_batches(&rt, rt.alloc());
    try_loads(&rt, rt.alloc());
}

/// The page of `--help`, word for word.
const PAGE: &[&str] = &[
    "costore keeps named objects of bytes in one file, within a stated factor of its live bytes.",
    "",
    "commands:",
    "  costore format FILE K NAMES       makes an empty store; FILE must be new or empty",
    "  costore get FILE NAME             prints the bytes of one object",
    "  costore check FILE                checks all rules of the file, and prints one line about it",
    "  costore map FILE                  prints where each segment and each object is",
    "  costore dump FILE                 prints all objects as one stream, sorted by name",
    "  costore run FILE                  serves the requests of standard input",
    "  costore work FILE NUMBER COUNT    does COUNT jobs that NUMBER draws, and prints a summary",
    "  costore upgrade FILE              gives each object a digest, so that damage is detected",
    "  costore load FILE K NAMES         makes a store from the dump on standard input",
    "  costore batch FILE                does the puts and dels of standard input, all or none",
    "  costore desk FILE                 serves eight sessions, by the script on standard input",
    "  costore cached FILE NUMBER COUNT ENTRIES",
    "                                    does the jobs of work, with a cache of ENTRIES objects",
    "  costore --help                    prints this page",
    "  costore --version                 prints the version",
    "",
    "FILE is any non-empty text. NAME is 1 to 63 bytes of printable ASCII without spaces. K is 2 to",
    "64: a segment of n bytes keeps n / K bytes free beside it. NAMES is 16 to 65536: how many objects",
    "can be live. NUMBER is 0 to 18446744073709551615, COUNT 1 to 1000000, ENTRIES 1 to 4096. Numbers",
    "have no sign and no leading zero.",
    "",
    "run reads requests, one a line, and replies to each:",
    "  put NAME SIZE                     stores an object; SIZE bytes and a newline follow the line",
    "  del NAME                          removes it",
    "  get NAME, old NAME                reads it as it is now, or as of the last checkpoint",
    "  keep, back                        saves a checkpoint, or returns to the last one",
    "  list, stat                        lists the names with their sizes, or counts names and bytes",
    "The reply ok kept says that a checkpoint was saved; a crash returns to it. After ok alone a crash",
    "or the end of the session loses the change, so end a session with keep.",
    "",
    "check prints store K NAMES COUNT BYTES DATA SEQUENCE KIND: how many objects there are, how many",
    "bytes they have, how many bytes the file has after its head, the number of its checkpoint, and",
    "still, or moving if a flush was interrupted. A flush moves objects to keep the file small. map",
    "prints class C CAPACITY BUFFER TAKEN for each segment in use, and object NAME PLACE SIZE for each",
    "object; for a moving file, moving BOUNDARY WALL SLACK comes first.",
    "",
    "work puts, removes and reads objects named o0, o1 and so on, saves a checkpoint, and prints twelve",
    "lines: requests, ok and kept (done without a checkpoint, and with one), read (bytes), refused;",
    "names, bytes and length at the end; moved (bytes); and linear, flat and seek: what the bytes moved",
    "and those asked for cost. cached prints three more: hits, misses and drops of its cache.",
    "",
    "desk reads events: say S, with a request on the lines after it, which waits after those of its",
    "session; serve S, which serves the first that waits; and step, which makes one move of the flush",
    "in hand. S is 0 to 7. It prints queued S or full S; to S and the reply, begun S, wait S or",
    "empty S; and moved or idle.",
    "",
    "status: 0 done, 1 faulty words, 2 a faulty request, 3 no such file, 4 not a store, 5 the file is",
    "not empty, 6 no such object, 7 the disk failed, 8 the input failed, 9 the output failed, 10 out of",
    "memory, 11 too many requests, 13 the object is damaged, 14 too many names, 15 the file was saved",
    "too often, 16 the file keeps a batch that is not valid, 17 the batch does not fit the file.",
    "At each status but 0 and 9 the last line of output begins with fault, unless there was no memory",
    "for the command line. At each status but 0 and 6 a line on standard error says why.",
    "",
    "examples: costore format blocks 9 1024",
    "          printf 'put a 5\\nhello\\nkeep\\n' | costore run blocks",
    "          costore get blocks a",
    "          costore check blocks",
    "          costore map blocks",
    "          costore dump blocks | costore load copy 9 1024",
    "          printf 'put b 5\\nworld\\n' | costore batch blocks",
    "          printf 'say 0\\nget a\\nserve 0\\n' | costore desk blocks",
    "          costore work blocks 1 1000",
];

/// The page as the program prints it.
fn page(rt: &impl Abort, alloc: Global) -> Vec<u8> {
    let mut page = Vec::new(alloc);
    for line in PAGE {
        page.extend_from_slice(line.as_bytes()).expect(rt, "memory");
        page.push(b'\n').expect(rt, "memory");
    }
    page
}

#[test]
fn prints_the_whole_page(rt: HostRuntime) {
    let page = page(&rt, rt.alloc());
    let ran = got(&rt, run(rt.alloc(), &["--help"], &[]));
    try_outcome(&rt, ran.outcome, ended(0), &"page");
    try_bytes(&rt, &ran.put, &page, &"page");
}
