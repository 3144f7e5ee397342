//! What is durable in a store over a file in memory, if the whole log of each call is made before the next.
ghost use Rattle.std.specs.Prelude.{◌≡◌, ◌⊎◌, ◌<◌, ◌-◌, ◌^◌, ℕ, Bool, List, true, false, Ok, None, Some, Result, IsTrue};
ghost use Rattle.disk_history.specs.Histories.{fresh};
ghost use Rattle.size_class.specs.declared.TheConstants.{CLASSES};
ghost use Rattle.map_model.specs.{Maps.{Map}, Requests.{Change}};
ghost use Rattle.segment_layout.specs.Books.{Book};
ghost use Rattle.store_model.specs.declared.answers.Begun.TheVariants as begun;
ghost use Rattle.store_model.specs.declared.answers.Progress.TheVariants as progress;
ghost use Rattle.store_model.specs.{declared.answers.Begun.{Begun}, declared.answers.Done.{Done}, declared.answers.Progress.{Progress}, declared.answers.Refusal.{Refusal}, Begins.{BeginsChange}, Changes.{NothingChanged}, Changing.{IsChange}, Flushes.{book_after, map_after}, Keeps.{IsKeep, now_map}, Steps.{IsStep}};
ghost use Rattle.store_model.specs.{Connection.{FlushInHand, IsOver, kept_map}, Halves.{HalfAgrees, Origin}, Opened.{IsFresh}};
ghost use Rattle.batch_core.specs.{Answers.{Applies, Finishes, kept_text}, declared.fault.BatchFault.{BatchFault}};
ghost use Rattle.batch_model.specs.{Batches.{IsBatch, applied}, Views.{unbatched}};
ghost use Rattle.lent_store.specs.{Batched.{batch_for, batch_kept, begun_on, ended_on}, Durable.{IsDurable, OnceMade, OpensTo, OpensWithin, WhereverStopped}, Embedded.{Embedded, IsEmbedded, disk_before, disk_of, file_in}, Noted.{IsNoted, IsNotedOf, RestsOnKept}};

/// What a call has kept is durable: the map after a put, a removal, a keep, a flush that a step settled, a
/// batch or the finish of one.
pub fn what_was_kept_is_durable()
    ensures change { (c : Change) (old new : Embedded) → IsChange CLASSES c old.store new.store
        (disk_before old) (disk_of new) (Ok (record { kept = true }))
        → IsDurable (map_after old.store c (file_in old)) (book_after old.store c (file_in old)) new }
    ensures keep { (old new : Embedded) → IsKeep CLASSES old.store new.store (disk_before old) (disk_of new)
        (Ok (record { kept = true })) → old.store.in_hand ≡ None → IsEmbedded new
        → IsDurable (now_map old.store (file_in old)) old.store.book new }
    ensures step { (h : FlushInHand) (o : Origin) (old new : Embedded) → IsStep CLASSES old.store new.store
        (disk_before old) (disk_of new) (Ok progress.Settled) → old.store.in_hand ≡ Some h
        → HalfAgrees CLASSES old.store h o (disk_of old) → IsDurable o.after h.book_after new }
    ensures apply { (text : List ℕ) (changes : List Change) (old new : Embedded)
        → Applies CLASSES text (begun_on old) (ended_on new) (Ok true) → IsBatch text changes
        → RestsOnKept old
        → IsDurable (applied changes (now_map old.store (file_in old))) new.store.kept_book new }
    ensures finish { (changes : List Change) (old new : Embedded)
        → Finishes CLASSES (begun_on old) (ended_on new) (Ok true)
        → IsBatch (kept_text (begun_on old)) changes → RestsOnKept old
        → IsDurable (applied changes (unbatched (now_map old.store (file_in old)))) new.store.kept_book new }
{}

/// What is durable stays so: over each put, removal and begin that is quiet, over each call that is refused,
/// and over a way back. What a store is opened with is durable.
pub fn what_is_durable_stays()
    ensures change { (c : Change) (m : Map) (b : Book) (old new : Embedded) → IsChange CLASSES c old.store
        new.store (disk_before old) (disk_of new) (Ok (record { kept = false })) → IsNoted old new
        → old.noting.history.turn < 2 ^ 64 - 1 → IsDurable m b old → IsDurable m b new }
    ensures begin { (c : Change) (m : Map) (b : Book) (old new : Embedded) → BeginsChange CLASSES c old.store
        new.store (disk_before old) (disk_of new) (Ok begun.Done) → IsNoted old new
        → old.noting.history.turn < 2 ^ 64 - 1 → IsDurable m b old → IsDurable m b new }
    ensures refused { (m : Map) (b : Book) (old new : Embedded) → NothingChanged old.store new.store
        (disk_before old) (disk_of new) → IsDurable m b old → IsDurable m b new }
    ensures back { (m : Map) (b : Book) (old new : Embedded)
        → new.store ≡ record old.store { now = old.store.kept; book = old.store.kept_book }
        → new.noting ≡ old.noting → IsDurable m b old → IsDurable m b new }
    ensures opened { (e : Embedded) → IsFresh CLASSES e.store → IsOver CLASSES e.store (file_in e)
        → RestsOnKept e → IsDurable (kept_map e.store (file_in e)) e.store.kept_book e }
{}

/// Once the whole log of a call, or of an opening, was made on its file, a crash leaves what is durable then.
pub fn a_whole_log_leaves_what_is_durable()
    ensures call { (m : Map) (b : Book) (old new : Embedded) → IsNoted old new → IsDurable m b new
        → OnceMade old.noting.history new.noting.text (OpensTo m b) }
    ensures opening { (file : List ℕ) (m : Map) (b : Book) (e : Embedded) → IsNotedOf file e
        → IsDurable m b e → OnceMade (fresh file) e.noting.text (OpensTo m b) }
{}

/// Where the making of a log stops, before, within or after one of its calls, a crash leaves what was durable
/// before, or what stands after the call, or a map of the batch. Of a step it leaves the last checkpoint from
/// before the flush, or the map after.
pub fn a_stopped_log_leaves_what_is_durable()
    ensures change { (c : Change) (m : Map) (b : Book) (old new : Embedded) (result : Result Done Refusal)
        → IsChange CLASSES c old.store new.store (disk_before old) (disk_of new) result → IsNoted old new
        → old.noting.history.turn < 2 ^ 64 - 1 → IsDurable m b old
        → WhereverStopped old.noting.history new.noting.text (λ image. OpensTo m b image
        ⊎ OpensTo (map_after old.store c (file_in old)) (book_after old.store c (file_in old)) image) }
    ensures keep { (m : Map) (b : Book) (old new : Embedded) (result : Result Done Refusal)
        → IsKeep CLASSES old.store new.store (disk_before old) (disk_of new) result → IsNoted old new
        → old.noting.history.turn < 2 ^ 64 - 1 → IsDurable m b old
        → WhereverStopped old.noting.history new.noting.text (λ image. OpensTo m b image
        ⊎ OpensTo (now_map old.store (file_in old)) old.store.book image) }
    ensures begin { (c : Change) (m : Map) (b : Book) (old new : Embedded) (result : Result Begun Refusal)
        → BeginsChange CLASSES c old.store new.store (disk_before old) (disk_of new) result
        → IsNoted old new → old.noting.history.turn < 2 ^ 64 - 1 → IsDurable m b old
        → WhereverStopped old.noting.history new.noting.text (λ image. OpensTo m b image
        ⊎ OpensTo (map_after old.store c (file_in old)) (book_after old.store c (file_in old)) image) }
    ensures step { (h : FlushInHand) (o : Origin) (old new : Embedded) (result : Result Progress Refusal)
        → IsStep CLASSES old.store new.store (disk_before old) (disk_of new) result → IsNoted old new
        → old.store.in_hand ≡ Some h → HalfAgrees CLASSES old.store h o (disk_of old)
        → IsTrue o.is_at_rest → old.noting.history.turn < 2 ^ 64 - 1
        → WhereverStopped old.noting.history new.noting.text (λ image. OpensTo o.kept_map o.kept_book image
        ⊎ OpensTo o.after h.book_after image) }
    ensures apply { (text : List ℕ) (changes : List Change) (m : Map) (b : Book) (old new : Embedded)
        (result : Result Bool BatchFault) → Applies CLASSES text (begun_on old) (ended_on new) result
        → IsNoted old new → IsBatch text changes → old.noting.history.turn < 2 ^ 64 - 1 → IsDurable m b old
        → WhereverStopped old.noting.history new.noting.text (λ image. OpensTo m b image
        ⊎ OpensWithin (batch_for old text changes) old image) }
    ensures finish { (changes : List Change) (m : Map) (b : Book) (old new : Embedded)
        (result : Result Bool BatchFault) → Finishes CLASSES (begun_on old) (ended_on new) result
        → IsNoted old new → IsBatch (kept_text (begun_on old)) changes
        → old.noting.history.turn < 2 ^ 64 - 1 → IsDurable m b old
        → WhereverStopped old.noting.history new.noting.text (λ image. OpensTo m b image
        ⊎ OpensWithin (batch_kept old changes) old image) }
{}
