//! Laws of jobs in which no device failed, and of what is put of them.
ghost use Rattle.std.specs.Prelude.{◌≡◌, ◌⊎◌, ◌++◌, false, List, ℕ, codes};
ghost use Rattle.disk_face.specs.{Counts.{IsCalm}, declared.bay.Mounted.TheVariants.{There}, Devices.{devices}};
ghost use Rattle.slot_codec.specs.Choice as choice;
ghost use Rattle.segment_layout.specs.Books.{Book};
ghost use Rattle.map_model.specs.Maps.{Map};
ghost use Rattle.table_rules.specs.Opening.{OpensBy};
ghost use Rattle.command_face.specs.Mounting.{IsMounted, mounted};
ghost use Rattle.read_cache.specs.Examples.{a_and_b};
ghost use Rattle.work_command.specs.{Asked.{NumberedJobs}, Summaries.{cache_lines, eleven_jobs, summary_text}, Working.{JobsAlways, JobsPromise}};

use command_face::{DISK_FAILED, DONE, NO_FILE, NO_MEMORY};
use disk_face::{Bay, Mounted, Sink};
use size_class::{CLASSES, SIZE_MAX};

/// What `work` puts of eleven jobs, whose moves weigh as those of three puts of 5, 10 and 100 bytes.
pub fn worked_summary()
    ensures { summary_text eleven_jobs
        ≡ codes "requests 11\nok 4\nkept 3\nread 4096\nrefused 2\nnames 3\nbytes 115\nlength 127\n"
        ++ codes "moved 325\nlinear 21810380800 7717519360\nflat 566231040 272629760\n"
        ++ codes "seek 58049167360 25165824000\n" }
{}

/// What `cached` puts of a cache of which two gets were hits and six were misses.
pub fn worked_counts()
    ensures { cache_lines a_and_b ≡ codes "hits 2\nmisses 6\ndrops 0\n" }
{}

/// Where the words are `work FILE NUMBER COUNT` or `cached FILE NUMBER COUNT ENTRIES`, the mount finds the
/// file, it opens, and no count of failures rises, all jobs are done or memory is wanting.
pub fn jobs_are_done<B: Bay, O: Sink>()
    ensures { (t : choice.SlotTable) (m : Map) (b : Book) (file : List ℕ) (asked : NumberedJobs)
        (status : ℕ) (old new : B) (out after : O) → OpensBy CLASSES SIZE_MAX t (B.state old).file m b
        → JobsPromise asked status (devices (B.state old) (O.state out))
        (devices (B.state new) (O.state after))
        → JobsAlways asked.count asked.entries status (devices (B.state old) (O.state out))
        (devices (B.state new) (O.state after))
        → IsMounted file false (B.state new).last_mount (status ≡ DISK_FAILED) (status ≡ NO_FILE)
        → (B.state new).last_mount ≡ mounted file false There
        → IsCalm (B.state old).faults (B.state new).faults
        → IsCalm (O.state out).faults (O.state after).faults
        → (status ≡ DONE) ⊎ (status ≡ NO_MEMORY) }
{}
