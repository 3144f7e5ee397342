//! Laws of the texts of requests and replies.
ghost use Rattle.std.specs.Prelude.{◌≡◌, ◌≤◌, ◌++◌, ℕ, List, [], ◌∷◌, Some, None, codes, length, slice_index};
ghost use Rattle.ask_text.specs.{Asks.{AsksFor, IsAsk, ask_of, line_of}, Inputs.{Asks, HasText, request_text}, Replies.{IsTold, first_line, reply_text}, declared.ask.Ask.{Ask}, declared.reply.Reply.{Reply}};
ghost use Rattle.ask_text.specs.declared.ask.Ask.TheVariants as ask;
ghost use Rattle.map_model.specs.Requests as request;
ghost use Rattle.map_model.specs.Requests.{Request};

/// A line asks for one thing at most; it has 270 bytes at most.
pub fn a_line_asks_once()
    ensures once { (line : List ℕ) (a b : Ask) → AsksFor line a → AsksFor line b → a ≡ b }
    ensures short { (a : Ask) → IsAsk a → length (line_of a) ≤ 270 }
{}

/// No text of a request is the front of another's: what two begin with is one request, and what
/// follows it is the same.
pub fn a_text_is_one_request()
    ensures { (r s : Request) (rest others : List ℕ) → HasText r → HasText s
        → request_text r ++ rest ≡ request_text s ++ others → (r ≡ s) × (rest ≡ others) }
{}

/// An input asks for one list of requests, and has one end that begins with none.
pub fn an_input_asks_once()
    ensures { (input : List ℕ) (rs ss : List Request) (end other : List ℕ) → Asks input rs end
        → Asks input ss other → (rs ≡ ss) × (end ≡ other) }
{}

/// The first line of a reply tells one reply alone.
pub fn a_first_line_tells_once()
    ensures { (r s : Reply) → IsTold r → IsTold s → first_line r ≡ first_line s → r ≡ s }
{}

/// Worked texts: of a put, a del, and replies.
pub fn worked_texts()
    ensures put { request_text (request.change (record { name = codes "a"; object = Some (codes "xyz") }))
        ≡ codes "put a 3\nxyz\n" }
    ensures del { request_text (request.change (record { name = codes "a"; object = None }))
        ≡ codes "del a\n" }
    ensures line { line_of (ask.Put (codes "a") 1000) ≡ codes "put a 1000" }
    ensures done { reply_text request.done ≡ codes "ok\n" }
    ensures kept { reply_text request.kept ≡ codes "ok kept\n" }
    ensures found { reply_text (request.found (codes "xyz")) ≡ codes "data 3\nxyz\n" }
    ensures refused { reply_text (request.refused request.full) ≡ codes "refused full\n" }
    ensures listed { reply_text (request.listed ((codes "a", 3) ∷ (codes "b", 0) ∷ []))
        ≡ codes "list 2\na 3\nb 0\n" }
    ensures counts { reply_text (request.counts 2 30 1 5) ≡ codes "stat 2 30 1 5\n" }
{}
