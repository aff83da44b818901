// Small runs: by computation, the definitions give these steps and words.
ghost use Rattle.std.specs.Prelude.{◌≡◌, true, false, [], ◌∷◌, ◌++◌};
ghost use Rattle.frames.specs.BoardRule.{first_slot};
ghost use Rattle.system.specs.declared.events.Act.TheVariants as act;
ghost use Rattle.system.specs.declared.events.Event.TheVariants as event;
ghost use Rattle.tie.specs.BoardOf.{slot_at, seat_at};
ghost use Rattle.tie.specs.BoardSamples.{Makes, Knows, core_after, words_of, life_of_a_code, steps_of_a_life, words_after_a_life, one_frame_counted, place_given_up, look_before_a_round, publication_begun_before_the_round, two_threads, amid_a_publication};

/// The whole life of a code makes each kind of step, with these codes, places and numbers in this order.
pub fn life_of_a_code()
    ensures { Makes life_of_a_code steps_of_a_life words_after_a_life }
{}

/// The words while one frame is counted: serial 1 not entrant, one frame, moment 2 at place 0, 0 at place 1, the moment 2.
pub fn one_frame_counted()
    ensures { words_of (core_after one_frame_counted) ≡ 5 ∷ 1 ∷ 2 ∷ 0 ∷ 2 ∷ [] }
{}

/// A vacated place holds no moment and passes every look. The code is retired: serial 1, a zombie.
pub fn place_given_up()
    ensures { words_of (core_after place_given_up) ≡ 6 ∷ 0 ∷ 0 ∷ 0 ∷ 1 ∷ [] }
{}

/// An unpublished frame is in no count, and the place's moment isn't above that of the invalidation: serial 1 not entrant.
pub fn look_before_a_round()
    ensures { words_of (core_after look_before_a_round) ≡ 5 ∷ 0 ∷ 1 ∷ 0 ∷ 1 ∷ [] }
{}

/// A publication that began before the round stores the moment of its own Begin, and the look answers Late. After the next publication the
/// code is retired: serial 1, a zombie, and moment 2 at place 0.
pub fn publication_begun_before_the_round()
    ensures { words_of (core_after publication_begun_before_the_round) ≡ 6 ∷ 0 ∷ 2 ∷ 0 ∷ 2 ∷ [] }
{}

/// A count is the sum over the seats: serial 1 in use, three frames, moment 1 at both places.
pub fn two_threads()
    ensures { words_of (core_after two_threads) ≡ 4 ∷ 3 ∷ 1 ∷ 1 ∷ 1 ∷ [] }
{}

/// What a seat knows during a publication, and what it no longer knows after the End.
pub fn amid_a_publication()
    ensures amid { Knows (seat_at (core_after amid_a_publication) 0) 2 true 2 1 true }
    ensures ended { Knows (seat_at (core_after (amid_a_publication ++ event.At 0 act.End
        ∷ [])) 0) 2 false 0 2 true }
{}

/// What the keeper knows of a slot. At first nothing. Then the moment of the invalidation and the places that were found clear. After the
/// Free still all of this, and that the code was weighed clear.
pub fn what_the_keeper_knows()
    ensures at_first { slot_at (core_after []) 0 ≡ first_slot }
    ensures late { ((slot_at (core_after amid_a_publication) 0).left ≡ 1)
        × ((slot_at (core_after amid_a_publication) 0).looked 0 ≡ false)
        × ((slot_at (core_after amid_a_publication) 0).clear ≡ false) }
    ensures freed { ((slot_at (core_after (place_given_up ++ event.Free 1 ∷ [])) 0).serial ≡ 1)
        × ((slot_at (core_after (place_given_up ++ event.Free 1 ∷ [])) 0).left ≡ 1)
        × ((slot_at (core_after (place_given_up ++ event.Free 1 ∷ [])) 0).looked 0 ≡ true) × ((slot_at (core_after (place_given_up ++ event.Free 1 ∷ [])) 0).clear ≡ true) }
{}
