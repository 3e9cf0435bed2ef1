//! What sound kinds are good for, as laws: functions that do nothing, and whose contracts are the laws.

ghost use Rattle.rg_c_plan.specs.Where.{AccessesAreWhere};
ghost use Rattle.rg_c_plan.specs.Laws.{OrdersAreStrict, StepsAreOneAccess, OthersMeetNobody, GuardedWordsInSections, NoRaces, NoRacesOutside, StepsAreEarly};

/// Which parts interrupt which is a strict order, whatever their ranks, and a total one among the parts at different places of a core.
pub fn orders_are_strict()
    ensures { OrdersAreStrict }
{}

/// Where kinds are sound, each step exposes one word at most, outside of sections; or in each state it makes at most one access to an atomic word.
pub fn steps_are_one_access()
    ensures { StepsAreOneAccess }
{}

/// A step meets nobody at a word that it neither exposes nor touches in a section, and at which no parts are kept apart; and guarded words are touched in sections,
/// or while none may act that touches them.
pub fn others_meet_nobody()
    ensures others { OthersMeetNobody }
    ensures sections { GuardedWordsInSections }
{}

/// Where two parts, or a part and the world outside, touch a word and one of them writes it, they do so by atomic accesses or in sections, or one part interrupts the
/// other, which does so in a section, or the assertions keep the parts apart there.
pub fn no_races()
    ensures parts { NoRaces }
    ensures outside { NoRacesOutside }
{}

/// A step that touches a word at which parts are kept apart makes no atomic access, or one store, and nothing after it.
pub fn steps_are_early()
    ensures { StepsAreEarly }
{}

/// Where a step accesses a word, the formula of that step and word holds.
pub fn accesses_are_where()
    ensures { AccessesAreWhere }
{}
