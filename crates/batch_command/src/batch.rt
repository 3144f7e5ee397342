//! The command `batch`: the puts and removals of an input take effect as one.
ghost use Rattle.std.specs.Prelude.{◌≡◌, false, None, IsTrue, length};
ghost use Rattle.std.specs.FinMap as fin;
ghost use Rattle.disk_face.specs.Devices.{devices};
ghost use Rattle.size_class.specs.declared.TheConstants.{CLASSES};
ghost use Rattle.store_model.specs.Connection.{IsConnected};
ghost use Rattle.command_face.specs.{Mounting.{IsMounted}, Outcomes.{Ends}, Refusing.{IsRefused}};
ghost use Rattle.served_file.specs.{Steps.{FileSteps, OpenSteps}, Unserved.{NeverServed}};
ghost use Rattle.batch_model.specs.Batches.{batch_name};
ghost use Rattle.batch_core.specs.StoresOn.{store_on};
ghost use Rattle.batch_command.specs.{Batching.{BatchAlways, BatchReads}, Doing.{AppliesInput, IsApplied, IsBatching, line_for, reason_of}, Promise.{BatchPromise}, Reading.{KeepsSource, most_read}};

use crate::text::{read_text, room_for};
use batch_core::{BatchFault, Batcher};
use command_face::{
    DISK_FAILED, NO_FILE, Outcome, StopReason, finish, mount_there, put_whole, stop_of,
};
use disk_face::{Bay, Disk, Sink, Source};
use size_class::{CLASSES, SIZE_MAX};
use std::alloc::Global;
use store_core::Store;

/// `batch FILE`: finishes the batch that the file keeps, if it keeps one, and then applies the puts and
/// removals of the input as one batch. It puts `ok kept`, or `ok` for an empty input. Status 2 tells that the
/// input is no batch, and 17 that it doesn't fit; 16 that what the file keeps as a batch is none, 13 that it
/// is damaged; and 15 that the sequence of the file leaves too few saves.
#[inline(never)]
pub fn batch_file<B: Bay, I: Source, O: Sink>(
    alloc: Global,
    bay: &mut B,
    file: &str,
    input: &mut I,
    output: &mut O,
) -> Outcome
    requires none { (B.state bay.old).last_mount ≡ None }
    ensures batches { IsTrue (B.state bay.old).tells → IsTrue (I.state input.old).tells
        → BatchPromise (I.state input.old).left result.status (devices (B.state bay.old) (O.state output.old))
        (devices (B.state bay.new) (O.state output.new)) }
    ensures refused { IsTrue (B.state bay.old).tells → NeverServed (B.state bay.old).file
        → Ends (IsRefused (B.state bay.old).file) result.status (O.state output.old)
        (O.state output.new) }
    ensures mounted { IsMounted file.now false (B.state bay.new).last_mount (result.status ≡ DISK_FAILED)
        (result.status ≡ NO_FILE) }
    ensures keeps { BatchAlways result.status (devices (B.state bay.old) (O.state output.old))
        (devices (B.state bay.new) (O.state output.new)) }
    ensures reads { BatchReads result.status (I.state input.old) (I.state input.new) (input.new ≡ input.old) }
    ensures numbers { (result.done ≡ 0) × (result.kept_done ≡ 0) × (result.kept_turn ≡ 0) }
{
    let end = batch_over(alloc, bay, file, input, output);
    finish(end, output)
}

/// Mounts the file, opens it and does the batch.
fn batch_over<B: Bay, I: Source, O: Sink>(
    alloc: Global,
    bay: &mut B,
    file: &str,
    input: &mut I,
    output: &mut O,
) -> Result<(), StopReason>
    requires none { (B.state bay.old).last_mount ≡ None }
    ensures steps { FileSteps B.state file.now (IsBatching B.state (I.state input.old) (I.state input.new))
        (devices (B.state bay.old) (O.state output.old)) (devices (B.state bay.new) (O.state output.new))
        result }
    ensures source { KeepsSource (I.state input.old) (I.state input.new) (input.new ≡ input.old) result }
{
    match mount_there(bay, file) {
        Ok(()) => batch_from(alloc, bay, input, output),
        Err(why) => Err(why),
    }
}

/// Opens the file and does the batch.
fn batch_from<D: Disk, I: Source, O: Sink>(
    alloc: Global,
    disk: &mut D,
    input: &mut I,
    output: &mut O,
) -> Result<(), StopReason>
    requires ready { IsTrue (D.state disk.old).is_ready }
    ensures steps { OpenSteps D.state (IsBatching D.state (I.state input.old) (I.state input.new))
        (devices (D.state disk.old) (O.state output.old)) (devices (D.state disk.new) (O.state output.new))
        result }
    ensures source { KeepsSource (I.state input.old) (I.state input.new) (input.new ≡ input.old) result }
{
    match Store::open(alloc, disk) {
        Ok(store) => batch_store(alloc, store, disk, input, output),
        Err(fault) => Err(stop_of(fault)),
    }
}

/// Does the batch with a store that isn't broken, with memory for its text and for that of one that is kept.
fn batch_store<D: Disk, I: Source, O: Sink>(
    alloc: Global,
    store: Store<CLASSES>,
    disk: &mut D,
    input: &mut I,
    output: &mut O,
) -> Result<(), StopReason>
    requires ready { IsTrue (D.state disk.old).is_ready }
    requires over { IsConnected CLASSES store (D.state disk.old) }
    requires whole { store.is_broken ≡ false }
    ensures steps { IsBatching D.state (I.state input.old) (I.state input.new) store
        (devices (D.state disk.old) (O.state output.old)) (devices (D.state disk.new) (O.state output.new))
        result }
    ensures source { KeepsSource (I.state input.old) (I.state input.new) (input.new ≡ input.old) result }
{
    let Ok(batcher) = Batcher::new(alloc, store) else {
        return Err(StopReason::NoMemory);
    };
    let Ok(mut text) = room_for(alloc, SIZE_MAX as usize + 1) else {
        return Err(StopReason::NoMemory);
    };
    batch_with(batcher, disk, input, output, &mut text)
}

/// Finishes the batch that the store keeps, and applies the input, with room for it in `text`.
fn batch_with<D: Disk, I: Source, O: Sink>(
    mut batcher: Batcher<CLASSES>,
    disk: &mut D,
    input: &mut I,
    output: &mut O,
    text: &mut [u8],
) -> Result<(), StopReason>
    requires ready { IsTrue (D.state disk.old).is_ready }
    requires over { IsConnected CLASSES batcher (D.state disk.old) }
    requires whole { batcher.is_broken ≡ false }
    requires room { length text.old ≡ most_read }
    ensures steps { IsBatching D.state (I.state input.old) (I.state input.new) batcher
        (devices (D.state disk.old) (O.state output.old)) (devices (D.state disk.new) (O.state output.new))
        result }
    ensures source { KeepsSource (I.state input.old) (I.state input.new) (input.new ≡ input.old) result }
{
    match batcher.finish(disk) {
        Ok(_) => apply_input(batcher, disk, input, output, text),
        Err(fault) => Err(reason_of(fault)),
    }
}

/// Reads the input, and applies it.
fn apply_input<D: Disk, I: Source, O: Sink>(
    batcher: Batcher<CLASSES>,
    disk: &mut D,
    input: &mut I,
    output: &mut O,
    text: &mut [u8],
) -> Result<(), StopReason>
    requires ready { IsTrue (D.state disk.old).is_ready }
    requires over { IsConnected CLASSES batcher (D.state disk.old) }
    requires whole { batcher.is_broken ≡ false }
    requires free { fin.get batcher.now batch_name ≡ None }
    requires room { length text.old ≡ most_read }
    ensures { AppliesInput (I.state input.old) (I.state input.new) batcher
        (devices (D.state disk.old) (O.state output.old)) (devices (D.state disk.new) (O.state output.new))
        result }
{
    match read_text(input, text) {
        Ok(n) => apply_text(batcher, disk, output, &text[..n]),
        Err(_) => Err(StopReason::Source),
    }
}

/// Applies a text, and puts the line of its answer.
fn apply_text<D: Disk, O: Sink>(
    mut batcher: Batcher<CLASSES>,
    disk: &mut D,
    output: &mut O,
    text: &[u8],
) -> Result<(), StopReason>
    requires ready { IsTrue (D.state disk.old).is_ready }
    requires over { IsConnected CLASSES batcher (D.state disk.old) }
    requires free { fin.get batcher.now batch_name ≡ None }
    ensures { IsApplied batcher text.now (devices (D.state disk.old) (O.state output.old))
        (devices (D.state disk.new) (O.state output.new)) result }
{
    match batcher.apply(disk, text) {
        Ok(kept) => put_whole(output, line_for(kept).as_bytes()),
        Err(fault) => Err(reason_of(fault)),
    }
}

/// What is put once a text was applied.
fn line_for(kept: bool) -> &'static str
    ensures { result.now ≡ line_for kept }
{
    if kept { "ok kept\n" } else { "ok\n" }
}

/// What a fault of a batch is to the command.
fn reason_of(fault: BatchFault) -> StopReason
    ensures { result ≡ reason_of fault }
{
    match fault {
        BatchFault::Broken | BatchFault::Disk => StopReason::Disk,
        BatchFault::Damaged => StopReason::Damaged,
        BatchFault::NoBatch => StopReason::NoBatch,
        BatchFault::Line(n) => StopReason::Line(n),
        BatchFault::Unfit(n) => StopReason::Unfit(n),
        BatchFault::Worn => StopReason::Worn,
    }
}
