//! The command that the words ask for.
ghost use Rattle.std.specs.Prelude.{◌≡◌, None};
ghost use Rattle.disk_face.specs.Devices.{devices};
ghost use Rattle.costore_top.specs.{Does.{Does}, Words.{IsCommand, command_of}};

use crate::help::{HELP, VERSION};
use crate::words::Command;
use batch_command::batch_file;
use command_face::{Outcome, finish, put_whole};
use desk_command::desk_file;
use disk_face::{Bay, Sink, Source};
use file_commands::{check_from, dump_from, format_in, get_from, map_from};
use load_command::load_file;
use run_command::run_file;
use std::alloc::Global;
use upgrade_command::upgrade_file;
use work_command::{cached_file, work_file};

/// Does what a command asks, and puts the fault line last.
pub fn do_command<B: Bay, I: Source, O: Sink>(
    alloc: Global,
    command: &Command,
    bay: &mut B,
    input: &mut I,
    output: &mut O,
) -> Outcome
    requires none { (B.state bay.old).last_mount ≡ None }
    requires valid { IsCommand (command_of command.now) }
    ensures { Does (command_of command.now) result (devices (B.state bay.old) (O.state output.old))
        (devices (B.state bay.new) (O.state output.new)) (I.state input.old) (I.state input.new)
        (bay.new ≡ bay.old) (input.new ≡ input.old) }
{
    match command {
        Command::Format(file, k, names) => finish(format_in(bay, file, *k, *names, output), output),
        Command::Get(file, name) => finish(get_from(alloc, bay, file, name, output), output),
        Command::Check(file) => finish(check_from(alloc, bay, file, output), output),
        Command::Map(file) => finish(map_from(alloc, bay, file, output), output),
        Command::Dump(file) => finish(dump_from(alloc, bay, file, output), output),
        Command::Run(file) => run_file(alloc, bay, file, input, output),
        Command::Work(file, number, count) => {
            work_file(alloc, bay, file, *number, *count, output)
        }
        Command::Cached(file, number, count, entries) => {
            cached_file(alloc, bay, file, *number, *count, *entries, output)
        }
        Command::Upgrade(file) => upgrade_file(alloc, bay, file, output),
        Command::Load(file, k, names) => { load_file(alloc, bay, file, *k, *names, input, output) }
        Command::Batch(file) => batch_file(alloc, bay, file, input, output),
        Command::Desk(file) => desk_file(alloc, bay, file, input, output),
        Command::Help => finish(put_whole(output, HELP.as_bytes()), output),
        Command::Version => finish(put_whole(output, VERSION.as_bytes()), output),
    }
}
