//! What holds of every stream. The functions do nothing: each contract is a law.
ghost use Rattle.std.specs.Prelude.{◌≡◌, ℕ, ◌<◌, ◌≤◌, ◌⊎◌, ◌++◌, List, length, take};
ghost use Rattle.rpc_framing.specs.Faults.{Breaks};
ghost use Rattle.rpc_framing.specs.Frames.{IsFrame, BeginsFrames, Splits, frame};
ghost use Rattle.rpc_framing.specs.declared.place.Departure.{Departure};

/// There is one way to read a stream as frames and a rest.
pub fn one_reading()
    ensures { (stream : List ℕ) (bodies others : List (List ℕ)) (rest left : List ℕ) →
        Splits stream bodies rest → Splits stream others left → (bodies ≡ others) × (rest ≡ left) }
{}

/// A stream with a fault is not frames and a rest.
pub fn no_reading_of_a_fault()
    ensures { (stream : List ℕ) (bodies others : List (List ℕ)) (rest : List ℕ) (departs : Departure) (at : ℕ) →
        Splits stream bodies rest → Breaks stream others departs at → ⊥ }
{}

/// A stream has one first fault for one reason, and the same frames before it.
pub fn one_fault()
    ensures { (stream : List ℕ) (bodies others : List (List ℕ)) (departs differs : Departure) (at place : ℕ) →
        Breaks stream bodies departs at → Breaks stream others differs place
        → (bodies ≡ others) × (departs ≡ differs) × (at ≡ place) }
{}

/// Every stream is frames and a rest, or has a first fault.
pub fn each_stream_reads()
    ensures { (stream : List ℕ) →
        ((bodies : List (List ℕ)) × (rest : List ℕ) × Splits stream bodies rest)
        ⊎ ((bodies : List (List ℕ)) × (departs : Departure) × (at : ℕ) × Breaks stream bodies departs at) }
{}

/// What is written is read.
pub fn written_is_read()
    ensures { (body : List ℕ) → length body ≤ 16777216 → IsFrame (frame body) body }
{}

/// Up to a first fault the bytes of a stream begin a sequence of frames, and with it they do not.
pub fn a_fault_is_the_first()
    ensures bad { (stream : List ℕ) (bodies : List (List ℕ)) (departs : Departure) (at : ℕ) →
        Breaks stream bodies departs at → BeginsFrames (take at stream) → ⊥ }
    ensures least { (stream : List ℕ) (bodies : List (List ℕ)) (departs : Departure) (at fewer : ℕ) →
        Breaks stream bodies departs at → fewer < at → BeginsFrames (take fewer stream) }
{}

/// A stream is read piece by piece as it is read at once.
pub fn pieces_join()
    ensures { (stream piece rest left : List ℕ) (bodies fresh : List (List ℕ)) →
        Splits stream bodies rest → Splits (rest ++ piece) fresh left → Splits (stream ++ piece) (bodies ++ fresh) left }
{}
