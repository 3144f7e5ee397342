//! Laws of scripts and of desks, as contracts of functions that do nothing.
ghost use Rattle.std.specs.Prelude.{◌≡◌, ◌≤◌, ◌<◌, ◌+◌, ◌++◌, ℕ, List, ◌∷◌, [], codes, flat_map, length, Some, None};
ghost use Rattle.std.specs.List.{AllByRecursion};
ghost use Rattle.map_model.specs.Requests as request;
ghost use Rattle.store_model.specs.States.{Limits};
ghost use Rattle.desk_model.specs.{Events.{Event, IsEvent, IsScript, event_text, sessions}, Answers.{Answer, answer_text}, Desks.{Desk, Plays, end_lines, last_desk, new_desk, queue_of}, Orders.{HasFlush, RunsAsTaken, left_of, moved_in, owed, queued_in, replies_of, requests_of, taken_in, taken_of, told_in}, Worked.{put_c, worked_answers, worked_events, worked_limits, worked_puts, worked_script, worked_state}};
ghost use Rattle.desk_model.specs.Events as event;
ghost use Rattle.desk_model.specs.Answers as answer;

/// No text of an event is the front of another's, so an input is one script.
pub fn a_text_is_one_event()
    ensures one { (e f : Event) (rest others : List ℕ) → IsEvent e → IsEvent f
        → event_text e ++ rest ≡ event_text f ++ others → (e ≡ f) × (rest ≡ others) }
    ensures script { (input : List ℕ) (es fs : List Event) (end other : List ℕ) → IsScript input es end
        → IsScript input fs other → (es ≡ fs) × (end ≡ other) }
{}

/// The requests that a desk takes are one run of its store, in the order in which they are taken, and each
/// is replied as there.
pub fn a_desk_is_one_run()
    ensures { (limits : Limits) (d : Desk) (es : List Event) (answers : List Answer) (ds : List Desk)
        → d.hand ≡ None → Plays limits d es answers ds → RunsAsTaken limits d es ds }
{}

/// A desk takes the requests of a session in the order in which they were queued: what waits at first and
/// what is queued is what is taken, and what waits at last.
pub fn a_session_is_taken_in_order()
    ensures { (limits : Limits) (d : Desk) (es : List Event) (answers : List Answer) (ds : List Desk) (s : ℕ)
        → length d.queues ≡ sessions → s < sessions → Plays limits d es answers ds
        → queue_of d s ++ queued_in s d es ds
        ≡ requests_of (taken_of s (taken_in limits d es ds)) ++ queue_of (last_desk d ds) s }
{}

/// A desk replies to a session in the order in which its requests are taken: the replies of what is taken
/// are those that are told, and that of a flush in hand, which is told when it has settled.
pub fn a_session_is_told_in_order()
    ensures { (limits : Limits) (d : Desk) (es : List Event) (answers : List Answer) (ds : List Desk) (s : ℕ)
        → Plays limits d es answers ds
        → owed s d.hand ++ replies_of (taken_of s (taken_in limits d es ds))
        ≡ told_in s answers ++ owed s (last_desk d ds).hand }
{}

/// A flush moves fewer objects than the steps that it may take: as long as it is in hand, each object moved
/// leaves it fewer steps, and there is one left to settle it.
pub fn a_flush_moves_few()
    ensures { (limits : Limits) (d : Desk) (es : List Event) (answers : List Answer) (ds : List Desk)
        → HasFlush d → 1 ≤ left_of d.hand → AllByRecursion HasFlush ds → Plays limits d es answers ds
        → (moved_in answers + left_of (last_desk d ds).hand ≤ left_of d.hand)
        × (1 ≤ left_of (last_desk d ds).hand) }
{}

/// Worked texts of events and answers.
pub fn worked_texts()
    ensures say { event_text (event.say 0 put_c) ≡ codes "say 0\nput c 5\nklmno\n" }
    ensures serve { event_text (event.serve 7) ≡ codes "serve 7\n" }
    ensures step { event_text event.step ≡ codes "step\n" }
    ensures full { answer_text (answer.full 3) ≡ codes "full 3\n" }
    ensures to { answer_text (answer.to 1 request.kept) ≡ codes "to 1\nok kept\n" }
{}

/// A worked script: it is the texts of its events, a desk may answer them so, and that is put for them.
pub fn worked_script()
    ensures input { flat_map event_text worked_events ≡ worked_script }
    ensures plays { (ds : List Desk)
        × (Plays worked_limits (new_desk worked_state) worked_events worked_answers ds
        × (flat_map answer_text worked_answers ++ end_lines (last_desk (new_desk worked_state) ds)
        ≡ worked_puts)) }
{}
