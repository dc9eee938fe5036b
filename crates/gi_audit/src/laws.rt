//! What holds of all desks that agree, and of those of all worlds. These functions do nothing;
//! their clauses are the laws.

ghost use Rattle.gi_audit.specs.Laws.{APlaceIsTheFirst, AgreeingDesksConfirmOneQuantity, AnotherTableHasAPlace, OpenAtBothIsOpen, TablesThatDifferHaveAPlace, TheMatchingSideConfirmsFirst, WorldsAgree};

/// Of two desks that agree every quantity that either has confirmed is the lower of the two that
/// both froze; what the initiating side has confirmed, the matching side has; and what both have
/// confirmed of a cycle reads alike.
pub fn agreeing_desks_confirm_one_quantity()
    ensures { AgreeingDesksConfirmOneQuantity }
{}

/// Where nothing that the initiating side met of a cycle differs, and it has confirmed the cycle, the
/// matching side has: no cycle is open at the matching side alone. What is found to be open at both
/// neither side has confirmed.
pub fn the_matching_side_confirms_first()
    ensures first { TheMatchingSideConfirmsFirst }
    ensures open_at_both { OpenAtBothIsOpen }
{}

/// The two desks of a world agree, whatever steps led to it, and so do the desks that start again
/// from what is saved there: no audit of them tells of a difference.
pub fn worlds_agree()
    ensures { WorldsAgree }
{}

/// Two tables of the same hours that are not equal have a place: the first row, in table order, that
/// differs, and there the first hour in which they read another quantity, if there is one. So where a
/// desk met another table than the one that its peer wrote, the place is told, and it is that one.
pub fn a_difference_has_its_place()
    ensures has { TablesThatDifferHaveAPlace }
    ensures first { APlaceIsTheFirst }
    ensures told { AnotherTableHasAPlace }
{}
