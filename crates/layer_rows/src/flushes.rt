//! Worked flushes over a shelf that is a list, also as they are found again.
ghost use Rattle.segment_layout.specs.Layouts.{divisor_of};
ghost use Rattle.layer_rows.specs.Listed.{LaysList, LiftsList, PacksList};

use crate::flush_begins::{Begun, PENDING, flush_of, layout_of};
use crate::flush_phases::{got, lay_all, lift_all, pack_all, pack_some};
use crate::flush_resumes::found_again;
use crate::list_shelf::ListShelf;
use crate::rows::try_holds;
use flush_plan::{Item, Laying, Lifting, Move, Numbers, Packing, Settled};
use segment_layout::Layout;
use size_class::CLASSES;
use std::alloc::Global;
use std::process::Abort;

/// A worked flush: the volumes of its layout by class, its objects by key, class, place and size, the bytes
/// of the pending one, its numbers, and its moves by key, place before and place after.
#[derive(Clone, Copy)]
struct Worked {
    volumes: &'static [(u8, u64)],
    objects: &'static [Item],
    pending: u64,
    numbers: Numbers,
    moves: &'static [(u32, u64, u64)],
}

macro_rules! flushes {
    ($([$($volume:expr),*], [$(($key:literal, $class:literal, $place:literal, $size:literal)),*],
        $pending:literal,
        [$boundary:literal, $start:literal, $wall:literal, $slack:literal, $reach:literal, $end:literal] =>
        [$($mv:expr),*];)*) => {
        &[$(Worked {
            volumes: &[$($volume),*],
            objects: &[$(Item {
                key: $key,
                class: $class,
                place: $place,
                size: $size,
            }),*],
            pending: $pending,
            numbers: Numbers {
                boundary: $boundary,
                start: $start,
                wall: $wall,
                slack: $slack,
                reach: $reach,
                end: $end,
            },
            moves: &[$($mv),*],
        }),*]
    };
}

const FLUSHES: &[Worked] = flushes!(
    [], [], 100, [6, 0, 212, 101, 312, 111] => [(PENDING, 212, 0)];
    [], [], 67_108_864, [26, 0, 141_674_269, 67_108_865, 208_783_133, 74_565_404]
        => [(PENDING, 141_674_269, 0)];
    [(6, 100)], [(0, 6, 0, 100), (1, 3, 100, 10)], 5, [2, 0, 239, 112, 254, 127]
        => [(1, 100, 239), (0, 0, 139), (PENDING, 249, 0), (1, 239, 5), (0, 139, 16)];
    [(2, 5), (3, 10), (6, 100)], [(0, 6, 16, 100)], 0, [2, 0, 239, 112, 239, 111]
        => [(0, 16, 139), (0, 139, 0)];
    [(6, 100)], [], 0, [6, 0, 112, 1, 112, 0] => [];
    [(6, 100)], [(0, 3, 100, 10)], 0, [3, 0, 122, 11, 132, 11] => [(0, 100, 122), (0, 122, 0)];
    [(6, 900)],
        [(1, 6, 0, 100), (2, 6, 100, 100), (3, 6, 200, 100), (4, 6, 300, 100), (5, 6, 400, 100),
            (6, 6, 500, 100), (7, 6, 600, 100), (8, 6, 700, 100), (9, 6, 800, 100),
            (10, 6, 900, 100)],
        100, [6, 0, 1423, 201, 1623, 1222]
        => [(10, 900, 1423), (9, 800, 1323), (8, 700, 1223), (7, 600, 1123), (6, 500, 1023),
            (5, 400, 923), (4, 300, 823), (3, 200, 723), (2, 100, 623), (1, 0, 523),
            (1, 523, 0), (2, 623, 100), (3, 723, 200), (4, 823, 300), (5, 923, 400),
            (6, 1023, 500), (7, 1123, 600), (8, 1223, 700), (9, 1323, 800), (10, 1423, 900),
            (PENDING, 1523, 1000)];
);

/// A flush that is interrupted once its last object is packed.
const FOUND_PACKED: &[Worked] = flushes!(
    [(6, 100)], [(0, 6, 0, 100), (1, 3, 100, 10)], 5, [2, 0, 239, 112, 254, 127]
        => [(1, 100, 239), (0, 0, 139), (PENDING, 249, 0), (1, 239, 5), (0, 139, 16)];
);

/// The items, with room for one more.
fn items_of(rt: &impl Abort, alloc: Global, objects: &[Item]) -> Vec<Item> {
    let mut items = Vec::from_slice(alloc, objects).expect(rt, "memory");
    items.reserve(1).expect(rt, "memory");
    items
}

/// Begins a worked flush.
fn begin(
    rt: &impl Abort,
    alloc: Global,
    layout: &Layout<CLASSES>,
    worked: &Worked,
) -> Begun<CLASSES>
    ensures { LiftsList CLASSES (divisor_of layout.now) result.lifting result.shelf.items.items }
{
    let items = items_of(rt, alloc, worked.objects);
    flush_of(layout, worked.numbers.boundary, items, worked.pending).expect(rt, "no flush")
}

/// Tries the numbers of a flush.
fn try_numbers(rt: &impl Abort, found: Numbers, wanted: Numbers) {
    try_holds(rt, found == wanted, &found);
}

/// Tries the moves that were made.
fn try_moves(rt: &impl Abort, made: &[Move], wanted: &[(u32, u64, u64)]) {
    try_holds(rt, made.len() == wanted.len(), &made.len());
    'moves: for n in 0..wanted.len() {
        try_holds(rt, is_move(made.get(n), &wanted[n]), &n);
    }
}

/// Whether this is a move of a key from a place to another.
fn is_move(made: Option<&Move>, wanted: &(u32, u64, u64)) -> bool {
    match made {
        Some(mv) => (mv.key, mv.from, mv.to) == *wanted,
        None => false,
    }
}

/// Tries one worked flush: its numbers, and its moves.
fn try_flush(rt: &impl Abort, alloc: Global, layout: &Layout<CLASSES>, worked: &Worked) {
    let Begun { lifting, shelf } = begin(rt, alloc, layout, worked);
    let mut shelf = shelf;
    let mut made = Vec::new(alloc);
    try_numbers(rt, lifting.numbers(), worked.numbers);
    let packing = got(rt, lift_all(layout, lifting, &mut shelf, &mut made));
    try_packed(rt, layout, packing, shelf, &mut made, worked.numbers);
    try_moves(rt, made.as_slice(), worked.moves);
}

/// Tries one worked flush that is interrupted behind Lift. Its numbers are found again from where its objects
/// stand, but for the reach, which is now the wall, and it goes on with the same moves.
fn try_found_flush(rt: &impl Abort, alloc: Global, layout: &Layout<CLASSES>, worked: &Worked) {
    let Begun { lifting, shelf } = begin(rt, alloc, layout, worked);
    let mut shelf = shelf;
    let mut made = Vec::new(alloc);
    let lifted = got(rt, lift_all(layout, lifting, &mut shelf, &mut made));
    let packing = found_again(layout, lifted, &shelf).expect(rt, "not found");
    let found = Numbers {
        reach: worked.numbers.wall,
        ..worked.numbers
    };
    try_packed(rt, layout, packing, shelf, &mut made, found);
    try_moves(rt, made.as_slice(), worked.moves);
}

/// Tries the numbers of a flush from Pack on, and notes its moves.
fn try_packed(
    rt: &impl Abort,
    layout: &Layout<CLASSES>,
    packing: Packing<CLASSES>,
    shelf: ListShelf,
    made: &mut Vec<Move>,
    numbers: Numbers,
)
    requires { PacksList CLASSES (divisor_of layout.now) packing shelf.items.items }
{
    let mut shelf = shelf;
    try_numbers(rt, packing.numbers(), numbers);
    let laying = got(rt, pack_all(layout, packing, &mut shelf, made));
    try_laid(rt, layout, laying, shelf, made, numbers);
}

/// Tries the numbers of a flush from Lay on, and notes its moves.
fn try_laid(
    rt: &impl Abort,
    layout: &Layout<CLASSES>,
    laying: Laying<CLASSES>,
    shelf: ListShelf,
    made: &mut Vec<Move>,
    numbers: Numbers,
)
    requires { LaysList CLASSES (divisor_of layout.now) laying shelf.items.items }
{
    let mut shelf = shelf;
    try_numbers(rt, laying.numbers(), numbers);
    let settled = got(rt, lay_all(layout, laying, &mut shelf, made));
    try_numbers(rt, settled.numbers(), numbers);
}

#[test]
fn worked_flushes(rt: HostRuntime) {
    for worked in FLUSHES {
        let layout = layout_of(9, worked.volumes);
        try_flush(&rt, rt.alloc(), &layout, worked);
        try_found_flush(&rt, rt.alloc(), &layout, worked);
    }
}

/// Tries a flush that is interrupted once its last object is packed.
fn try_found_packed(rt: &impl Abort, alloc: Global, layout: &Layout<CLASSES>, worked: &Worked) {
    let Begun { lifting, shelf } = begin(rt, alloc, layout, worked);
    let mut shelf = shelf;
    let mut made = Vec::new(alloc);
    let again = lift_and_find(rt, layout, lifting, &mut shelf, &mut made);
    let settled = pack_and_lay(rt, layout, again, shelf, &mut made);
    try_volumes(rt, &settled);
    try_moves(rt, made.as_slice(), worked.moves);
}

/// Makes the moves of Lift, and notes them, then one of Pack, and finds the flush again.
fn lift_and_find(
    rt: &impl Abort,
    layout: &Layout<CLASSES>,
    lifting: Lifting<CLASSES>,
    shelf: &mut ListShelf,
    made: &mut Vec<Move>,
) -> Packing<CLASSES>
    requires { LiftsList CLASSES (divisor_of layout.now) lifting shelf.old.items.items }
    ensures { PacksList CLASSES (divisor_of layout.now) result shelf.new.items.items }
{
    let lifted = got(rt, lift_all(layout, lifting, shelf, made));
    let packing = got(rt, pack_some(layout, lifted, shelf, made, 1));
    found_again(layout, packing, &*shelf).expect(rt, "not found")
}

/// Goes on to the end. Two moves were noted before, and Pack has none left.
fn pack_and_lay(
    rt: &impl Abort,
    layout: &Layout<CLASSES>,
    packing: Packing<CLASSES>,
    shelf: ListShelf,
    made: &mut Vec<Move>,
) -> Settled<CLASSES>
    requires { PacksList CLASSES (divisor_of layout.now) packing shelf.items.items }
{
    let mut shelf = shelf;
    let laying = got(rt, pack_all(layout, packing, &mut shelf, made));
    assert!(rt; made.len() == 2);
    got(rt, lay_all(layout, laying, &mut shelf, made))
}

/// Tries the bytes of three classes at the end.
fn try_volumes(rt: &impl Abort, settled: &Settled<CLASSES>) {
    let volumes = settled.volumes();
    assert!(rt; (volumes.get(2), volumes.get(3), volumes.get(6)) == (5, 10, 100));
}

#[test]
fn a_flush_that_is_found_packed(rt: HostRuntime) {
    for worked in FOUND_PACKED {
        let layout = layout_of(9, worked.volumes);
        try_found_packed(&rt, rt.alloc(), &layout, worked);
    }
}
