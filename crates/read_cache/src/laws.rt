//! Laws of the list of a cache.
ghost use Rattle.std.specs.Prelude.{◌≡◌, ◌<◌, Bool, false, length, List, replicate};
ghost use Rattle.disk_face.specs.Counts.{last};
ghost use Rattle.map_model.specs.Requests.{Reply, Request};
ghost use Rattle.read_cache.specs.{Examples.{a_and_b, nine_listed, nine_replies, nine_requests}, Lists.{Listing, after_all, empty_listing}};

/// Nine requests of a cache of two objects: two gets are hits, and six are misses.
pub fn worked_list()
    ensures { after_all nine_listed nine_requests nine_replies (empty_listing 2) ≡ a_and_b }
{}

/// Where no drop was counted the requests and their replies alone fix the list and its counts: none of
/// them was one.
pub fn without_drops_the_replies_fix_the_list()
    ensures { (drops : List Bool) (requests : List Request) (replies : List Reply) (l : Listing)
        → l.drops < last → (after_all drops requests replies l).drops ≡ l.drops
        → after_all drops requests replies l
        ≡ after_all (replicate (length drops) false) requests replies l }
{}
