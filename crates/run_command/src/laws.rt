//! A law of a session in which no device failed.
ghost use Rattle.std.specs.Prelude.{◌≡◌, ◌⊎◌, ◌<◌, false, [], List, ℕ, length};
ghost use Rattle.disk_face.specs.{Counts.{IsCalm}, declared.bay.Mounted.TheVariants.{There}, Devices.{devices}};
ghost use Rattle.slot_codec.specs.Choice as choice;
ghost use Rattle.segment_layout.specs.Books.{Book};
ghost use Rattle.map_model.specs.{Maps.{Map}, Requests.{Request}};
ghost use Rattle.table_rules.specs.Opening.{OpensBy};
ghost use Rattle.ask_text.specs.Inputs.{Asks};
ghost use Rattle.ask_session.specs.Runs.{budget};
ghost use Rattle.command_face.specs.Mounting.{IsMounted, mounted};
ghost use Rattle.run_command.specs.{Headline.{RunPromise}, Sessions.{RunAlways}};

use command_face::{DISK_FAILED, DONE, NO_FILE, NO_MEMORY, Outcome};
use disk_face::{Bay, Mounted, Sink, Source};
use size_class::{CLASSES, SIZE_MAX};

/// Where the words are `run FILE`, the mount finds the file, it opens, the input asks for fewer than 2^32
/// requests and has nothing behind them, and no count of failures rises, each request is answered or memory
/// is wanting before the first.
pub fn requests_are_served<B: Bay, I: Source, O: Sink>()
    ensures { (t : choice.SlotTable) (m : Map) (b : Book) (file : List ℕ) (requests : List Request)
        (o : Outcome)
        (old new : B) (from rest : I) (out after : O)
        → OpensBy CLASSES SIZE_MAX t (B.state old).file m b
        → Asks (I.state from).left requests [] → length requests < budget
        → RunPromise o (devices (B.state old) (O.state out)) (devices (B.state new) (O.state after))
        (I.state from) (I.state rest)
        → RunAlways o (devices (B.state old) (O.state out)) (devices (B.state new) (O.state after))
        (I.state from) (I.state rest) (rest ≡ from)
        → IsMounted file false (B.state new).last_mount (o.status ≡ DISK_FAILED) (o.status ≡ NO_FILE)
        → (B.state new).last_mount ≡ mounted file false There
        → IsCalm (B.state old).faults (B.state new).faults
        → IsCalm (I.state from).faults (I.state rest).faults
        → IsCalm (O.state out).faults (O.state after).faults
        → ((o.status ≡ DONE) × (o.done ≡ length requests)) ⊎ ((o.status ≡ NO_MEMORY) × (o.done ≡ 0)) }
{}
