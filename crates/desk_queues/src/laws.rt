//! Laws of what waits, as contracts of functions that do nothing.
ghost use Rattle.std.specs.Prelude.{◌≡◌, List};
ghost use Rattle.map_model.specs.Requests.{Request};
ghost use Rattle.desk_queues.specs.Queues.{Holds, Queued};

/// What waits is one list of requests for each session.
pub fn what_waits_is_known()
    ensures { (v : Queued) (qs others : List (List Request)) → Holds v qs → Holds v others → qs ≡ others }
{}
