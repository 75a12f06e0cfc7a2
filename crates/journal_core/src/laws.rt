// What the definitions say, as laws. The functions do nothing.
ghost use Rattle.std.specs.Prelude.{◌≡◌, ◌≢◌, ◌<◌, ◌≤◌, ◌+◌, ◌^◌, ◌⊎◌, ◌++◌, ◌∷◌, [], ℕ, List, Ok, Err, length, take, slice_index};
ghost use Rattle.journal_core.specs.Frames.{header, spell, at_rest, end_of, told_length, payloads_of, AreShort};
ghost use Rattle.journal_core.specs.Left.{Shape, Leaves};
ghost use Rattle.journal_core.specs.Starts.{StandsAt};

/// Header, frames and an end gate read as the frames' payloads, whatever follows.
pub fn frames_are_read()
    ensures { (frames : List (List ℕ)) (gate : ℕ) (rest : List ℕ) → AreShort frames → gate ≢ 165
        → payloads_of (header ++ spell frames ++ gate ∷ rest) ≡ Ok frames }
{}

/// After frames a gate A5 whose frame and next gate don't fit is the byte at fault.
pub fn an_unfit_frame_is_refused()
    ensures { (frames : List (List ℕ)) (rest : List ℕ) → AreShort frames
        → length rest ≤ 4 + told_length rest
        → 17 < length (header ++ spell frames ++ 165 ∷ rest)
        → payloads_of (header ++ spell frames ++ 165 ∷ rest) ≡ Err (end_of frames) }
{}

/// So is the first byte that isn't the header's, and a file of at most 17 bytes has no fault.
pub fn another_header_is_refused()
    ensures fault { (file : List ℕ) (at : ℕ) → 17 < length file → at < 16
        → take at file ≡ take at header
        → slice_index file at ≢ slice_index header at → payloads_of file ≡ Err at }
    ensures young { (file : List ℕ) → length file ≤ 17 → payloads_of file ≡ Ok [] }
{}

/// What a crash leaves of a journal reads as its frames, or as these with the one in hand.
pub fn what_is_left_is_read()
    ensures { (frames : List (List ℕ)) (hand file : List ℕ) → AreShort (frames ++ hand ∷ [])
        → Shape frames hand file
        → (payloads_of file ≡ Ok frames) ⊎ (payloads_of file ≡ Ok (frames ++ hand ∷ [])) }
{}

/// A new disk, and a journal at rest, are as a crash may leave them, whatever comes in hand.
pub fn what_is_whole_is_left()
    ensures young { (hand file : List ℕ) → length hand < 2 ^ 32 → length file ≤ 17
        → Leaves [] hand file }
    ensures rests { (frames : List (List ℕ)) (hand : List ℕ) → AreShort frames
        → length hand < 2 ^ 32 → Leaves frames hand (at_rest frames) }
{}

/// In a file at rest each payload stands where the frames before it end.
pub fn payloads_stand_in_order()
    ensures { (before after : List (List ℕ)) (payload : List ℕ) → length payload < 2 ^ 32
        → StandsAt (at_rest (before ++ payload ∷ after)) (end_of before) payload }
{}
