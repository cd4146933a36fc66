//! What holds of certificates that leave nothing out.

ghost use Rattle.cert_check.specs.PlacedBits.{PatternOfBitsLaw, DigitsAreBitsLaw};
ghost use Rattle.cert_check.specs.Situations.{OneStatesLaw, OneVerdictLaw};
ghost use Rattle.cert_check.specs.WholeLaws.{WholeIsAcceptedLaw, KeptIsWholeLaw, WholeIsUniqueLaw, WholeIsInFormLaw, BestOrderIsShownLaw};
ghost use Rattle.cert_check.specs.WholeSizes.{WholeStatesAreFewLaw, MakespanPairsLaw, PairsAreOpenLaw};

/// A certificate that leaves nothing out is accepted with what it claims: its states are exactly those where some legal prefix
/// lands, each with exactly the undominated pairs, and its landings are a best list, or there is none where nothing is
/// feasible.
pub fn whole_certificates_are_accepted()
    ensures { WholeIsAcceptedLaw }
{}

/// Pairs kept of a state, of which none is worse than another, are exactly its undominated ones; the states that leave nothing
/// out are fixed by the problem, and keep the form of a certificate's.
pub fn whole_states_are_fixed()
    ensures kept { KeptIsWholeLaw }
    ensures unique { WholeIsUniqueLaw }
    ensures in_form { WholeIsInFormLaw }
{}

/// The states that leave nothing out are few: at most 1, 4, 18 or 80 for each flight, for k from 0 to 3. For the makespan each
/// has one pair; and each pair is at a second that is open for the last flight of its state. The call does nothing: it tells
/// its caller the law.
pub fn whole_states_are_few()
    ensures states { WholeStatesAreFewLaw }
    ensures makespan { MakespanPairsLaw }
    ensures seconds { PairsAreOpenLaw }
{}

/// The node of a prefix by the set of its ranks: its digits are bits of that set.
pub fn patterns_are_bits()
    ensures pattern { PatternOfBitsLaw }
    ensures digits { DigitsAreBitsLaw }
{}

/// The landings of a best list are shown optimal, in whatever order they stand.
pub fn best_lists_are_shown()
    ensures { BestOrderIsShownLaw }
{}

/// The verdict on a certificate is one for a situation: two problems of it, which may keep their pairs of ranks in lists of other
/// lengths, are answered the same. The call does nothing: it tells its caller the law.
pub fn situation_has_one_verdict()
    ensures { OneVerdictLaw }
{}

/// The states that leave nothing out are one list for a situation, whichever problem of it they are those of. The call does
/// nothing: it tells its caller the law.
pub fn situation_has_one_list_of_states()
    ensures { OneStatesLaw }
{}
