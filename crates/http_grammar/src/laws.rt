//! The laws of the definitions, as public functions with empty bodies.
ghost use Rattle.std.specs.Prelude.{◌≡◌, ◌<◌, ◌≤◌, ◌++◌, ℕ, List, [], length, true};
ghost use Rattle.http_grammar.specs.Request.{Head, Request};
ghost use Rattle.http_grammar.specs.Chunks.{BodyFront, ChunkedBody};
ghost use Rattle.http_grammar.specs.Fields.{expects_continue};
ghost use Rattle.http_grammar.specs.First.{First, Front, IsDecided, Whole, Waits, Fault, HoldsHead};
ghost use Rattle.http_grammar.specs.declared.fault.HttpFault.{HttpFault};
ghost use Rattle.http_grammar.specs.declared.fault.HttpFault.TheVariants.{Cut};

/// At most one thing stands at the front of the bytes.
pub fn first_is_one()
    ensures { (bytes : List ℕ) (x y : Front) → First bytes x → First bytes y → x ≡ y }
{}

/// A request or a fault at the front stays there, whatever follows: so it can't matter how the input is cut.
pub fn first_is_kept()
    ensures { (bytes more : List ℕ) (x : Front) → First bytes x → IsDecided x → First (bytes ++ more) x }
{}

/// A request has some bytes, and lies within those that are there.
pub fn request_lies_within()
    ensures { (bytes : List ℕ) (r : Request) (n : ℕ) → First bytes (Whole r n) → (0 < n) × (n ≤ length bytes) }
{}

/// The chunked form of a body is read in one way at most (RFC 9112, section 7.1).
pub fn chunked_body_is_one()
    ensures { (text : List ℕ) (x y : BodyFront) → ChunkedBody text x → ChunkedBody text y → x ≡ y }
{}

/// The bytes hold at most one head.
pub fn held_head_is_one()
    ensures { (bytes : List ℕ) (h k : Head) → HoldsHead bytes h → HoldsHead bytes k → h ≡ k }
{}

/// A head that the bytes hold stays, whatever follows.
pub fn held_head_is_kept()
    ensures { (bytes more : List ℕ) (h : Head) → HoldsHead bytes h → HoldsHead (bytes ++ more) h }
{}

/// Where a request stands, the bytes hold its head.
pub fn whole_request_holds_its_head()
    ensures { (bytes : List ℕ) (r : Request) (n : ℕ) → First bytes (Whole r n) → HoldsHead bytes r.head }
{}

/// Where a head waits for its body, the bytes hold it, and it expects the interim reply.
pub fn waiting_head_is_held()
    ensures { (bytes : List ℕ) (h : Head) → First bytes (Waits h) → HoldsHead bytes h × (expects_continue h ≡ true) }
{}

/// The bytes alone are never cut: whether the input ends is for a reader to say.
pub fn first_is_never_cut()
    ensures { (bytes : List ℕ) → First bytes (Fault Cut) → ⊥ }
{}

/// A head that is held has some bytes.
pub fn held_head_has_bytes()
    ensures { (h : Head) → HoldsHead [] h → ⊥ }
{}

/// Where a fault stands at the front, the head that more bytes hold is held already.
pub fn fault_holds_its_head()
    ensures { (bytes more : List ℕ) (fault : HttpFault) (h : Head) → First bytes (Fault fault)
        → HoldsHead (bytes ++ more) h → HoldsHead bytes h }
{}
