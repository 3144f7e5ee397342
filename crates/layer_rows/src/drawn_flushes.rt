//! Flushes that are drawn by a number, beside a plain plan in three passes.
ghost use Rattle.std.specs.Prelude.{◌<◌, ◌≤◌, IfOk};
ghost use Rattle.segment_layout.specs.Layouts.{divisor_of};
ghost use Rattle.layer_rows.specs.Listed.{LaysList, LiftsList};

use crate::flush_begins::{Begun, PENDING, flush_of, layout_of};
use crate::flush_phases::{got, lay_all, lay_some, lift_all, pack_all};
use crate::flush_resumes::found_laid;
use crate::list_shelf::ListShelf;
use crate::plain_flush::{slow_lay, slow_lift, slow_numbers, slow_pack};
use crate::rows::try_holds;
use flush_plan::{Item, Laying, Lifting, Move, Numbers};
use segment_layout::Layout;
use std::alloc::{AllocError, Global};
use std::process::Abort;

/// The next number below a limit.
fn drawn(seed: &mut u64, limit: u64) -> u64
    requires { 0 < limit }
    ensures { result < limit }
{
    *seed = seed
        .wrapping_mul(6_364_136_223_846_793_005)
        .wrapping_add(1_442_695_040_888_963_407);
    (*seed >> 33) % limit
}

/// Puts objects of some classes into a range, with gaps.
fn fill(
    seed: &mut u64,
    low: u64,
    high: u64,
    first: u8,
    last: u8,
    items: &mut Vec<Item>,
) -> Result<(), AllocError>
    requires rises { first ≤ last }
    requires small { last < 8 }
{
    let mut at = low;
    for _ in 0..6 {
        let class = first + drawn(seed, u64::from(last - first) + 1) as u8;
        let least = 1u64 << class;
        let size = least + drawn(seed, least);
        at = at.saturating_add(drawn(seed, 4) * drawn(seed, 3));
        if at.saturating_add(size) <= high {
            let key = items.len().min(900) as u32;
            items.push(Item {
                key,
                class,
                place: at,
                size,
            })?;
            at = at.saturating_add(size);
        }
    }
    Ok(())
}

/// A flush that is drawn by a number.
#[derive(Drop)]
struct DrawnFlush {
    layout: Layout<6>,
    b: u8,
    items: Vec<Item>,
    pending: u64,
}

/// Draws a flush, with at most 17 bytes pending. It has room for one more item.
fn draw(alloc: Global, number: u64) -> Result<DrawnFlush, AllocError>
    ensures boundary { IfOk result (λ flush. flush.b < 6) }
    ensures small { IfOk result (λ flush. flush.pending ≤ 17) }
{
    let mut seed = number;
    let layout = draw_layout(&mut seed);
    let b = drawn(&mut seed, 3) as u8;
    let mut items = draw_items(alloc, &mut seed, &layout, b)?;
    items.reserve(1)?;
    let pending = draw_pending(&mut seed, b);
    Ok(DrawnFlush {
        layout,
        b,
        items,
        pending,
    })
}

/// Draws a layout: its divisor, and a volume of each class.
fn draw_layout(seed: &mut u64) -> Layout<6> {
    let k = 2 + drawn(seed, 4);
    let mut volumes = [(0u8, 0u64), (1, 0), (2, 0), (3, 0), (4, 0), (5, 0)];
    for c in 0..6usize {
        volumes[c].1 = drawn(seed, 200);
    }
    layout_of(k, &volumes)
}

/// Draws the objects of the classes from `b` on, in payload segments and in buffers.
fn draw_items(
    alloc: Global,
    seed: &mut u64,
    layout: &Layout<6>,
    b: u8,
) -> Result<Vec<Item>, AllocError>
    requires { b < 6 }
{
    let mut items = Vec::new(alloc);
    for c in b..6 {
        let start = layout.start(c);
        let buffer = layout.buffer_start(c);
        let end = buffer.saturating_add((buffer - start) / layout.k().max(2));
        fill(seed, start, buffer, c, c, &mut items)?;
        fill(seed, buffer, end, b, c, &mut items)?;
    }
    Ok(items)
}

/// Draws how many bytes are pending, of class `b` at least where there are some.
fn draw_pending(seed: &mut u64, b: u8) -> u64
    requires { b < 3 }
    ensures { result ≤ 17 }
{
    if drawn(seed, 3) == 0 {
        0
    } else {
        let least = 1u64 << (b + drawn(seed, 3) as u8);
        (least + drawn(seed, 2)).min(17)
    }
}

/// Begins a flush that was drawn.
fn begin(rt: &impl Abort, flush: DrawnFlush) -> (Layout<6>, Begun<6>)
    ensures { LiftsList 6 (divisor_of result.0) result.1.lifting result.1.shelf.items.items }
{
    let DrawnFlush {
        layout,
        b,
        items,
        pending,
    } = flush;
    let begun = flush_of(&layout, b, items, pending).expect(rt, "no flush");
    (layout, begun)
}

/// Makes the moves of Lift and Pack, and notes them.
fn lift_and_pack(
    rt: &impl Abort,
    layout: &Layout<6>,
    lifting: Lifting<6>,
    shelf: &mut ListShelf,
    made: &mut Vec<Move>,
) -> Laying<6>
    requires { LiftsList 6 (divisor_of layout.now) lifting shelf.old.items.items }
    ensures { LaysList 6 (divisor_of layout.now) result shelf.new.items.items }
{
    let packing = got(rt, lift_all(layout, lifting, shelf, made));
    got(rt, pack_all(layout, packing, shelf, made))
}

/// What a plain plan makes of a flush: its numbers, the items where it leaves them, by key, and its moves.
#[derive(Drop)]
struct PlainFlush {
    numbers: Numbers,
    places: Vec<Item>,
    moves: Vec<Move>,
}

/// Plans a flush that was drawn.
fn plan(alloc: Global, drawn: &DrawnFlush) -> Result<PlainFlush, AllocError>
    requires boundary { drawn.now.b < 6 }
    requires small { drawn.now.pending ≤ 17 }
{
    let items = drawn.items.as_slice();
    let numbers = slow_numbers(&drawn.layout, drawn.b, items, drawn.pending);
    let mut places = Vec::from_slice(alloc, items)?;
    add_pending(&mut places, drawn.pending, numbers.reach)?;
    let moves = plan_moves(alloc, &drawn.layout, numbers, &mut places)?;
    places.sort_unstable_by_key(|item| item.key);
    Ok(PlainFlush {
        numbers,
        places,
        moves,
    })
}

/// Adds the pending object, which ends at the reach.
fn add_pending(items: &mut Vec<Item>, pending: u64, reach: u64) -> Result<(), AllocError>
    requires { pending ≤ 17 }
{
    if pending > 0 {
        items.push(Item {
            key: PENDING,
            class: size_class::class_of(pending),
            place: reach.saturating_sub(pending),
            size: pending,
        })?;
    }
    Ok(())
}

/// Plans the moves of a flush in three passes over its items.
fn plan_moves(
    alloc: Global,
    layout: &Layout<6>,
    numbers: Numbers,
    items: &mut Vec<Item>,
) -> Result<Vec<Move>, AllocError> {
    let mut moves = Vec::new(alloc);
    slow_lift(layout, numbers.wall, items, &mut moves)?;
    slow_pack(numbers.wall, items, &mut moves)?;
    slow_lay::<6>(layout.k().max(2), numbers, items, &mut moves)?;
    Ok(moves)
}

/// Tries a flush that is drawn by a number against a plain plan.
fn try_drawn(rt: &impl Abort, alloc: Global, number: u64) {
    let drawn = draw(alloc, number).expect(rt, "memory");
    let plain = plan(alloc, &drawn).expect(rt, "memory");
    let (layout, begun) = begin(rt, drawn);
    try_holds(rt, begun.lifting.numbers() == plain.numbers, &number);
    try_moves(rt, alloc, number, &layout, begun, &plain);
    try_found_laid(rt, alloc, number, plain.places.as_slice());
}

/// Tries the moves of a flush, and where its objects stand at the end, told by key.
fn try_moves(
    rt: &impl Abort,
    alloc: Global,
    number: u64,
    layout: &Layout<6>,
    begun: Begun<6>,
    plain: &PlainFlush,
)
    requires { LiftsList 6 (divisor_of layout.now) begun.lifting begun.shelf.items.items }
{
    let Begun { lifting, shelf } = begun;
    let mut shelf = shelf;
    let mut made = Vec::new(alloc);
    let laying = lift_and_pack(rt, layout, lifting, &mut shelf, &mut made);
    got(rt, lay_all(layout, laying, &mut shelf, &mut made));
    try_holds(rt, made.as_slice() == plain.moves.as_slice(), &number);
    try_places(rt, shelf, plain.places.as_slice(), number);
}

/// Tries the same flush, interrupted behind some moves of Lay: it ends at the same places, told by key.
fn try_found_laid(rt: &impl Abort, alloc: Global, number: u64, places: &[Item]) {
    let (layout, begun) = begin(rt, draw(alloc, number).expect(rt, "memory"));
    let Begun { lifting, shelf } = begun;
    let mut shelf = shelf;
    let mut made = Vec::new(alloc);
    let laying = lift_and_pack(rt, &layout, lifting, &mut shelf, &mut made);
    let within = got(
        rt,
        lay_some(&layout, laying, &mut shelf, &mut made, number % 24),
    );
    lay_again(rt, &layout, within, &mut shelf, &mut made);
    try_places(rt, shelf, places, number);
}

/// Goes on with a flush that was interrupted within Lay.
fn lay_again(
    rt: &impl Abort,
    layout: &Layout<6>,
    laying: Laying<6>,
    shelf: &mut ListShelf,
    made: &mut Vec<Move>,
)
    requires { LaysList 6 (divisor_of layout.now) laying shelf.old.items.items }
{
    let again = found_laid(layout, laying, &*shelf).expect(rt, "not found");
    let packed = got(rt, pack_all(layout, again, shelf, made));
    got(rt, lay_all(layout, packed, shelf, made));
}

/// Tries where the objects of a shelf stand, by key.
fn try_places(rt: &impl Abort, shelf: ListShelf, places: &[Item], number: u64) {
    let ListShelf { items: last } = shelf;
    let mut last = last;
    last.sort_unstable_by_key(|item| item.key);
    try_holds(rt, last.as_slice() == places, &number);
}

#[test]
fn drawn_flushes(rt: HostRuntime) {
    for number in 0..300 {
        try_drawn(&rt, rt.alloc(), number);
    }
}
